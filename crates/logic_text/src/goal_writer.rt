//! The text of a goal.

ghost use Rattle.std.specs.Prelude.{◌≡◌, ◌++◌, ℕ, OnOk, IfOk, codes, map};
ghost use Rattle.logic_terms.specs.View.{formula};
ghost use Rattle.logic_terms.specs.Sorts.{sort as kind_of, kinds_in};
ghost use Rattle.logic_terms.specs.Goal.{called_as, problem};
ghost use Rattle.term_reader.specs.Sorts.{kind_text};
ghost use Rattle.logic_terms.specs.Text.{node_text};
ghost use Rattle.logic_text.specs.Answers.{IsBadGoal};
ghost use Rattle.logic_text.specs.Goals.{line_end, sorts_text, taken_text, call_text, calls_text, hypotheses_text, goal_bytes};

use crate::fits::goal_fits;
use ada_values::ByteList;
use logic_terms::{
    Call, CallList, Formula, FormulaList, Goal, Sort, SortList, Starved, SymbolList, push_formula,
};
use sqlite_items::Items;
use std::alloc::Global;
use term_reader::push_sort;

/// Adds a space and a sort.
fn push_spaced_sort(text: &mut Vec<u8>, sort: &Sort) -> Result<(), Starved>
    ensures { OnOk result (text.new.items ≡ text.old.items ++ (codes " " ++ kind_text (kind_of sort.now))) }
{
    text.extend_from_slice(b" ")?;
    push_sort(text, sort)
}

/// Adds the sorts of symbols, each with a space before it.
fn push_symbols(text: &mut Vec<u8>, symbols: &SymbolList) -> Result<(), Starved>
    ensures { OnOk result (text.new.items ≡ text.old.items ++ sorts_text (map (λ s. kind_of s.sort) symbols.now)) }
{
    for symbol in symbols.as_slice() {
        push_spaced_sort(text, &symbol.sort)?;
    }
    Ok(())
}

/// Adds a sort and a space.
fn push_sort_spaced(text: &mut Vec<u8>, sort: &Sort) -> Result<(), Starved>
    ensures { OnOk result (text.new.items ≡ text.old.items ++ (kind_text (kind_of sort.now) ++ codes " ")) }
{
    push_sort(text, sort)?;
    text.extend_from_slice(b" ")
}

/// Adds sorts, each with a space after it.
fn push_taken(text: &mut Vec<u8>, sorts: &SortList) -> Result<(), Starved>
    ensures { OnOk result (text.new.items ≡ text.old.items ++ taken_text (kinds_in (map kind_of sorts.now))) }
{
    for sort in sorts.as_slice() {
        push_sort_spaced(text, sort)?;
    }
    Ok(())
}

/// Adds a space and the sorts of a call in brackets.
fn push_call(text: &mut Vec<u8>, call: &Call) -> Result<(), Starved>
    ensures { OnOk result (text.new.items ≡ text.old.items ++ (codes " " ++ call_text (called_as call.now))) }
{
    text.extend_from_slice(b" (")?;
    push_taken(text, &call.arguments)?;
    push_sort(text, &call.answer)?;
    text.extend_from_slice(b")")
}

/// Adds calls, each with a space before it.
fn push_calls(text: &mut Vec<u8>, calls: &CallList) -> Result<(), Starved>
    ensures { OnOk result (text.new.items ≡ text.old.items ++ calls_text (map called_as calls.now)) }
{
    for call in calls.as_slice() {
        push_call(text, call)?;
    }
    Ok(())
}

/// Adds a line of a word and a formula.
fn push_line(alloc: Global, text: &mut Vec<u8>, word: &str, p: &Formula) -> Result<(), Starved>
    ensures { OnOk result (text.new.items ≡ text.old.items ++ (word.now ++ node_text (formula p.now) ++ line_end)) }
{
    text.extend_from_slice(word.as_bytes())?;
    push_formula(alloc, text, p)?;
    text.extend_from_slice(b"\n")
}

/// Adds a line for each hypothesis.
fn push_hypotheses(
    alloc: Global,
    text: &mut Vec<u8>,
    hypotheses: &FormulaList,
) -> Result<(), Starved>
    ensures { OnOk result (text.new.items ≡ text.old.items ++ hypotheses_text (map formula hypotheses.now)) }
{
    for p in hypotheses.as_slice() {
        push_line(alloc, text, "hyp ", p)?;
    }
    Ok(())
}

/// Writes the text of a goal.
fn write_goal(alloc: Global, g: &Goal) -> Result<ByteList, Starved>
    ensures { IfOk result (λ text. text ≡ goal_bytes (problem g.now)) }
{
    let mut text = Vec::new(alloc);
    text.extend_from_slice(b"sorts")?;
    push_symbols(&mut text, &g.symbols)?;
    text.extend_from_slice(b"\ncalls")?;
    push_calls(&mut text, &g.calls)?;
    text.extend_from_slice(b"\n")?;
    push_hypotheses(alloc, &mut text, &g.hypotheses)?;
    push_line(alloc, &mut text, "goal ", &g.conclusion)?;
    Ok(Items::from_vec(text))
}

/// The text of a goal. It is read back: `read_goal` answers it with a goal that states the same, with `TooLong` or with
/// `Starved`. To show this, the call first goes through all terms and formulas of the goal, in time linear in their size.
pub fn goal_text(alloc: Global, g: &Goal) -> Result<ByteList, Starved>
    ensures text { IfOk result (λ text. text ≡ goal_bytes (problem g.now)) }
    ensures read { IfOk result (λ text. (at : ℕ) → IsBadGoal text at → ⊥) }
{
    goal_fits(g);
    let text = write_goal(alloc, g)?;
    Ok(text)
}
