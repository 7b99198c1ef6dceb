//! Pragmas: assertions, loop invariants and loop variants (Ada RM 11.4.2, SPARK RM 5.5.3).

ghost use Rattle.std.specs.Prelude.{◌≡◌, IfOk};
ghost use Rattle.front_codes.specs.declared.codes.Code.TheVariants as code;
ghost use Rattle.reading_scope.specs.Scopes.{scope_of};
ghost use Rattle.statement_rules.specs.Arounds.{around_of};
ghost use Rattle.statement_rules.specs.Bodies.{sort_as};
ghost use Rattle.statement_typing.specs.Asked.{item_place};
ghost use Rattle.statement_typing.specs.Aspects.{item_condition};
ghost use Rattle.statement_typing.specs.Checks.{added, and_also, refuse};
ghost use Rattle.statement_typing.specs.Pragmas.{checked, checked_arg, moved_value, no_more, way, ways, ways_onto};
ghost use Rattle.statement_typing.specs.Statements.{demand_of, in_pragma, pragma_by};
ghost use Rattle.syntax_view.specs.View.{arg_of, args_of, expr, item_of};
ghost use Rattle.type_base.specs.declared.seen.Want.TheVariants as want;
ghost use Rattle.typed_units.specs.declared.statements.Demand.TheVariants as demand;
ghost use Rattle.typing_rules.specs.Fits.{with_found};
ghost use Rattle.typing_rules.specs.Reading.{item_seen};

use crate::conditions::item_condition;
use crate::words::choice_word;
use ada_syntax::{Arg, ArgChoice, Expr as Tree, Item};
use ada_values::Place;
use expression_reader::item_seen;
use name_numbers::Word;
use name_values::added;
use reading_scope::Scope;
use sqlite_items::Items;
use statement_rules::{
    Around, Sort, and_also, assert_read, assume_read, checked_by, direction_of, moved_value,
    refuse, way_by, with_refused,
};
use std::alloc::Global;
use type_base::{Code, Refusal, Starved, Want};
use typed_units::{Action, Demand, Expr, Stmt, Way};
use typing_rules::Found;

// ---- Assert, Assume and Loop_Invariant

/// The condition that an argument of a pragma gives. `Err` where memory was refused.
fn condition_given(
    alloc: Global,
    around: &Around,
    item: &Item<Tree>,
) -> Result<Found<Expr>, Starved>
    ensures { IfOk result (λ x. x ≡ item_condition (in_pragma (around_of around.now)) code.L9 (item_of expr item.now)) }
{
    let scope = around.in_pragma();
    item_condition(alloc, &scope, Code::L9, item)
}

/// The condition that an argument of a pragma is; L9 is broken where another choice than `Check` stands before it. `Err` where
/// memory was refused.
#[tactic(auto, using(crate::proofs::Read::checked_arg_is))]
fn checked_arg(alloc: Global, around: &Around, arg: &Arg<Tree>) -> Result<Found<Expr>, Starved>
    ensures { IfOk result (λ x. x ≡ checked_arg (around_of around.now).word (in_pragma (around_of around.now)) (arg_of expr arg.now)) }
{
    let place = around.scope.place(arg.span.from);
    match &arg.value {
        Some(item) => {
            let condition = condition_given(alloc, around, item)?;
            Ok(checked_by(place, choice_word(around, &arg.choice), condition))
        }
        None => match &arg.choice {
            ArgChoice::Item(item) => condition_given(alloc, around, item),
            ArgChoice::Others | ArgChoice::Range(_, _) => Ok(refuse(Code::L9, place)),
        },
    }
}

/// What is refused of the arguments after the first: L9 is broken where there is one.
fn no_more(around: &Around, args: &[Arg<Tree>]) -> Found<bool>
    ensures { result ≡ no_more (in_pragma (around_of around.now)) (args_of expr args.now) }
{
    match args {
        [] => Found::Is(true),
        [first, _rest @ ..] => refuse(Code::L9, around.scope.place(first.span.from)),
    }
}

/// The condition of a pragma at a place, which has this one argument; L9 is broken elsewhere. `Err` where memory was refused.
pub fn checked(
    alloc: Global,
    around: &Around,
    place: Place,
    args: &[Arg<Tree>],
) -> Result<Found<Expr>, Starved>
    ensures { IfOk result (λ x. x ≡ checked (around_of around.now).word (in_pragma (around_of around.now)) place (args_of expr args.now)) }
{
    match args {
        [] => Ok(refuse(Code::L9, place)),
        [first, rest @ ..] => {
            let condition = checked_arg(alloc, around, first)?;
            Ok(and_also(condition, no_more(around, rest)))
        }
    }
}

// ---- Loop_Variant

/// The integer that an item in a scope is. `Err` where memory was refused.
fn integer_given(alloc: Global, scope: &Scope, item: &Item<Tree>) -> Result<Found<Expr>, Starved>
    ensures { IfOk result (λ x. x ≡ moved_value (scope_of scope.now).world (item_place (scope_of scope.now) (item_of expr item.now)) (item_seen (scope_of scope.now) want.Free (item_of expr item.now))) }
{
    let seen = item_seen(alloc, scope, Want::Free, item)?;
    moved_value(alloc, scope.world(), scope.place(item.span.from), seen)
}

/// The integer that an argument of a loop variant gives. `Err` where memory was refused.
fn value_given(alloc: Global, around: &Around, item: &Item<Tree>) -> Result<Found<Expr>, Starved>
    ensures { IfOk result (λ x. x ≡ moved_value (in_pragma (around_of around.now)).world (item_place (in_pragma (around_of around.now)) (item_of expr item.now)) (item_seen (in_pragma (around_of around.now)) want.Free (item_of expr item.now))) }
{
    let scope = around.in_pragma();
    integer_given(alloc, &scope, item)
}

/// What an argument of a loop variant is; L25 is broken where it has no direction. `Err` where memory was refused.
#[tactic(auto, using(statement_rules::proofs::ReadParts::way_is))]
fn way(alloc: Global, around: &Around, arg: &Arg<Tree>) -> Result<Found<Way>, Starved>
    ensures { IfOk result (λ x. x ≡ way (around_of around.now).word (in_pragma (around_of around.now)) (arg_of expr arg.now)) }
{
    let place = around.scope.place(arg.span.from);
    match &arg.value {
        Some(item) => {
            let value = value_given(alloc, around, item)?;
            let direction = direction_of(choice_word(around, &arg.choice));
            Ok(way_by(place, direction, value))
        }
        None => Ok(refuse(Code::L25, place)),
    }
}

/// The arguments of a loop variant so far, with one more. `Err` where memory was refused.
fn with_way(
    alloc: Global,
    around: &Around,
    done: Found<Items<Way>>,
    arg: &Arg<Tree>,
) -> Result<Found<Items<Way>>, Starved>
    ensures { IfOk result (λ xs. xs ≡ added done (way (around_of around.now).word (in_pragma (around_of around.now)) (arg_of expr arg.now))) }
{
    match way(alloc, around, arg) {
        Ok(found) => added(done, found),
        Err(error) => {
            drop(done);
            Err(error)
        }
    }
}

fn ways_onto(
    alloc: Global,
    around: &Around,
    done: Found<Items<Way>>,
    args: &[Arg<Tree>],
) -> Result<Found<Items<Way>>, Starved>
    ensures { IfOk result (λ xs. xs ≡ ways_onto (around_of around.now).word (in_pragma (around_of around.now)) done (args_of expr args.now)) }
{
    let mut all = done;
    for arg in args {
        all = with_way(alloc, around, all, arg)?;
    }
    Ok(all)
}

/// What a loop variant at a place has; L25 is broken where it has no argument. `Err` where memory was refused.
pub fn ways(
    alloc: Global,
    around: &Around,
    place: Place,
    args: &[Arg<Tree>],
) -> Result<Found<Items<Way>>, Starved>
    ensures { IfOk result (λ xs. xs ≡ ways (around_of around.now).word (in_pragma (around_of around.now)) place (args_of expr args.now)) }
{
    match args {
        [] => Ok(refuse(Code::L25, place)),
        [first, rest @ ..] => {
            let done = with_way(alloc, around, Found::Is(Items::new(alloc)), first)?;
            ways_onto(alloc, around, done, rest)
        }
    }
}

// ---- pragmas as statements, and those of a loop's group

fn misplaced<T: Drop>(place: Place, found: Found<T>) -> Found<Action<Stmt>>
    ensures { result ≡ and_also (refuse code.L25 place) found }
{
    with_refused(
        Refusal {
            code: Code::L25,
            place,
        },
        found,
    )
}

/// A pragma at a place that has this word, as a statement; L25 is broken where it belongs into a loop's group. `Err` where memory
/// was refused.
pub fn pragma_by(
    alloc: Global,
    around: &Around,
    place: Place,
    word: Option<Word>,
    args: &[Arg<Tree>],
) -> Result<Found<Action<Stmt>>, Starved>
    ensures { IfOk result (λ x. x ≡ pragma_by (around_of around.now) place word (args_of expr args.now)) }
{
    match word {
        Some(Word::Assert) => {
            let condition = checked(alloc, around, place, args)?;
            Ok(assert_read(condition))
        }
        Some(Word::Assume) => {
            let condition = checked(alloc, around, place, args)?;
            Ok(assume_read(condition))
        }
        Some(Word::LoopInvariant) => {
            let condition = checked(alloc, around, place, args)?;
            Ok(misplaced(place, condition))
        }
        Some(Word::LoopVariant) => {
            let found = ways(alloc, around, place, args)?;
            Ok(misplaced(place, found))
        }
        _ => Ok(Found::Is(Action::Null)),
    }
}

fn invariant_read(condition: Found<Expr>) -> Found<Demand>
    ensures { result ≡ with_found demand.Invariant condition }
{
    match condition {
        Found::Is(x) => Found::Is(Demand::Invariant(x)),
        Found::Unknown => Found::Unknown,
        Found::Refused(refusal) => Found::Refused(refusal),
    }
}

fn variant_read(found: Found<Items<Way>>) -> Found<Demand>
    ensures { result ≡ with_found demand.Variant found }
{
    match found {
        Found::Is(all) => Found::Is(Demand::Variant(all)),
        Found::Unknown => Found::Unknown,
        Found::Refused(refusal) => Found::Refused(refusal),
    }
}

/// What a pragma of a loop's group demands. `Err` where memory was refused.
pub(crate) fn demand_of(
    alloc: Global,
    around: &Around,
    place: Place,
    sort: Sort,
) -> Result<Found<Demand>, Starved>
    ensures { IfOk result (λ x. x ≡ demand_of (around_of around.now) place (sort_as sort.entry)) }
{
    match sort {
        Sort::Invariant(args) => {
            let condition = checked(alloc, around, place, args)?;
            Ok(invariant_read(condition))
        }
        Sort::Variant(args) => {
            let found = ways(alloc, around, place, args)?;
            Ok(variant_read(found))
        }
        Sort::Another => Ok(Found::Unknown),
    }
}
