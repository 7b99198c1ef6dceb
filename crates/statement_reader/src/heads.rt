//! What stands before the body of a loop (Ada RM 5.5).

ghost use Rattle.std.specs.Prelude.{◌≡◌, IfOk};
ghost use Rattle.front_codes.specs.declared.codes.Code.TheVariants as code;
ghost use Rattle.reading_scope.specs.Scopes.{scope_of};
ghost use Rattle.statement_reader.specs.Loops.{entry_from};
ghost use Rattle.statement_typing.specs.Asked.{range_seen};
ghost use Rattle.statement_typing.specs.Statements.{entry, with_turn};
ghost use Rattle.syntax_view.specs.View.{expr, head_of, range_of};
ghost use Rattle.syntax_view.specs.Trees as tree;
ghost use Rattle.type_base.specs.declared.seen.Want.TheVariants as want;
ghost use Rattle.typed_units.specs.declared.operators.Object.TheVariants as object;
ghost use Rattle.typed_units.specs.declared.statements.Head.TheVariants as head;
ghost use Rattle.typing_rules.specs.Fits.{with_found};
ghost use Rattle.typing_rules.specs.Lookups.{with_parameter};

use crate::conditions::tested;
use ada_syntax::{Expr as Tree, LoopHead, Range};
use ada_text::Span;
use expression_reader::range_seen;
use name_library::Spot;
use reading_scope::Scope;
use sqlite_items::Items;
use std::alloc::Global;
use type_base::{Code, Parameter, Starved};
use typed_units::{Counted, Expr, Head, Object};
use typing_rules::{Between, Found};

/// What stands before the body of a loop.
#[derive(Drop)]
pub(crate) struct LoopEntry {
    pub head: Found<Head>,
    /// The parameters of the loops and the indexes around the body, innermost first.
    pub parameters: Items<Parameter>,
    /// The number of its parameter, where it is a `for` loop.
    pub parameter: Option<u32>,
}

/// The parameters and indexes around, with that of a loop in front, which stands at a byte. `Err` where memory was refused.
fn with_parameter(
    alloc: Global,
    scope: &Scope,
    at: u32,
    subtype: u32,
) -> Result<Items<Parameter>, Starved>
    ensures { IfOk result (λ all. all ≡ (with_parameter (scope_of scope.now) at subtype (object.Turn ((scope_of scope.now).number at))).parameters) }
{
    let parameter = Parameter {
        spot: Spot {
            file: scope.place(at).file,
            at,
        },
        subtype,
        object: Object::Turn(scope.number(at)),
    };
    let outer = Items::from_slice(alloc, scope.parameters)?;
    let mut all = Items::new(alloc);
    all.push(parameter)?;
    all.append(outer)?;
    Ok(all)
}

/// The parameters and indexes around the body of a `for` loop: with its own, where what it goes over is known. `Err` where memory
/// was refused.
fn with_turn(
    alloc: Global,
    scope: &Scope,
    name: Span,
    range: &Found<Between>,
) -> Result<Items<Parameter>, Starved>
    ensures { IfOk result (λ all. all ≡ (with_turn (scope_of scope.now) name range.now).parameters) }
{
    match range {
        Found::Is(between) => with_parameter(alloc, scope, name.from, between.subtype),
        Found::Unknown | Found::Refused(_) => Items::from_slice(alloc, scope.parameters),
    }
}

/// What a `for` loop goes over; L22 is broken where it is no range. `Err` where memory was refused.
#[tactic(auto, using(crate::proofs::Read::free_range))]
fn turn_range(alloc: Global, scope: &Scope, range: &Range<Tree>) -> Result<Found<Between>, Starved>
    ensures { IfOk result (λ b. b ≡ range_seen (scope_of scope.now) code.L22 want.Free (range_of expr range.now)) }
{
    range_seen(alloc, scope, Code::L22, range)
}

fn for_head(reverse: bool, number: u32, range: Found<Between>) -> Found<Head>
    ensures { result ≡ with_found (λ x. head.For reverse (record { number = number; subtype = x.subtype }) x.low x.high) range }
{
    match range {
        Found::Is(between) => {
            let Between { subtype, low, high } = between;
            Found::Is(Head::For(reverse, Counted { number, subtype }, low, high))
        }
        Found::Unknown => Found::Unknown,
        Found::Refused(refusal) => Found::Refused(refusal),
    }
}

fn while_head(condition: Found<Expr>) -> Found<Head>
    ensures { result ≡ with_found head.While condition }
{
    match condition {
        Found::Is(x) => Found::Is(Head::While(x)),
        Found::Unknown => Found::Unknown,
        Found::Refused(refusal) => Found::Refused(refusal),
    }
}

fn for_entry(
    alloc: Global,
    scope: &Scope,
    name: Span,
    reverse: bool,
    range: &Range<Tree>,
) -> Result<LoopEntry, Starved>
    ensures { IfOk result (λ y. entry_from (scope_of scope.now) y ≡ entry (scope_of scope.now) (tree.for name reverse (range_of expr range.now))) }
{
    let number = scope.number(name.from);
    let range = turn_range(alloc, scope, range)?;
    match with_turn(alloc, scope, name, &range) {
        Ok(parameters) => Ok(LoopEntry {
            head: for_head(reverse, number, range),
            parameters,
            parameter: Some(number),
        }),
        Err(error) => {
            drop(range);
            Err(error)
        }
    }
}

/// What stands before the body of a loop. `Err` where memory was refused.
pub(crate) fn entry(alloc: Global, scope: &Scope, head: &LoopHead) -> Result<LoopEntry, Starved>
    ensures { IfOk result (λ y. entry_from (scope_of scope.now) y ≡ entry (scope_of scope.now) (head_of head.now)) }
{
    match head {
        LoopHead::Forever => {
            let parameters = Items::from_slice(alloc, scope.parameters)?;
            Ok(LoopEntry {
                head: Found::Is(Head::Forever),
                parameters,
                parameter: None,
            })
        }
        LoopHead::While(condition) => {
            let parameters = Items::from_slice(alloc, scope.parameters)?;
            let condition = tested(alloc, scope, condition)?;
            Ok(LoopEntry {
                head: while_head(condition),
                parameters,
                parameter: None,
            })
        }
        LoopHead::For(name, reverse, range) => for_entry(alloc, scope, *name, *reverse, range),
    }
}
