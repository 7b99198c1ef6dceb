//! Associations of an array, each value of which has been read (Ada RM 4.3.3).

ghost use Rattle.std.specs.Prelude.{◌≡◌, IfOk};
ghost use Rattle.reading_scope.specs.Scopes.{scope_of};
ghost use Rattle.syntax_view.specs.View.{arg_of, expr};
ghost use Rattle.typing_rules.specs.Reading.{arg};
ghost use Rattle.expression_reader.specs.Sorts.{by_choice, by_others, by_place, item_step};
ghost use Rattle.expression_reader.specs.declared.sorts.ItemStep.TheVariants as step;
ghost use Rattle.aggregate_rules.specs.Steps.{item_gathered as gathering};
ghost use Rattle.operand_rules.specs.Operands.{value_read};

use crate::Starved;
use ada_syntax::{Arg, Expr};
use aggregate_rules::{item_gathered, position_range, rest_gathered, some_values, stopped};
use operand_rules::{ReadOperand, value_read};
use reading_scope::Scope;
use std::alloc::Global;
use typed_units::Bounds;
use typing_rules::{ArrayItems, Found, Gathered, Manner};

/// What an association is, with its value.
#[derive(Drop)]
pub(crate) enum ReadSort {
    Positional(ReadOperand),
    /// One with a choice, and the numbers that the choice has.
    Chosen(Found<Bounds>, ReadOperand),
    /// One of `others`.
    Rest(ReadOperand),
    Misfit,
}

/// What an association leads to.
#[derive(Drop)]
pub(crate) enum ItemStep {
    /// What follows isn't looked at.
    Ended(ArrayItems),
    /// How values are given from here on, and what is gathered.
    Further(Manner, Gathered),
}

/// What is gathered with one more association, whose operand is its value. `Err` where memory was refused.
fn further(
    alloc: Global,
    scope: &Scope,
    item: u32,
    manner: Manner,
    gathered: Gathered,
    range: Found<Bounds>,
    operand: ReadOperand,
) -> Result<ItemStep, Starved>
    ensures { IfOk result (λ s. s ≡ step.Further manner (gathering (scope_of scope.now) item gathered range operand.place (value_read (scope_of scope.now) operand))) }
{
    let place = operand.place;
    let seen = match value_read(alloc, scope, operand) {
        Ok(seen) => seen,
        Err(error) => {
            drop(gathered);
            return Err(error);
        }
    };
    match item_gathered(alloc, scope, item, gathered, range, place, seen) {
        Ok(gathered) => Ok(ItemStep::Further(manner, gathered)),
        Err(error) => Err(error),
    }
}

fn by_place(
    alloc: Global,
    scope: &Scope,
    item: u32,
    manner: Manner,
    gathered: Gathered,
    association: &Arg<Expr>,
    range: Found<Bounds>,
    operand: ReadOperand,
) -> Result<ItemStep, Starved>
    ensures { IfOk result (λ s. s ≡ by_place (scope_of scope.now) item manner gathered (arg (scope_of scope.now) (arg_of expr association.now)) range operand) }
{
    match manner {
        Manner::ByChoice => {
            drop(operand);
            Ok(ItemStep::Ended(stopped(scope, gathered, association)))
        }
        Manner::Either | Manner::ByPlace => {
            further(
                alloc,
                scope,
                item,
                Manner::ByPlace,
                gathered,
                range,
                operand,
            )
        }
    }
}

fn by_choice(
    alloc: Global,
    scope: &Scope,
    item: u32,
    alone: bool,
    manner: Manner,
    gathered: Gathered,
    association: &Arg<Expr>,
    range: Found<Bounds>,
    operand: ReadOperand,
) -> Result<ItemStep, Starved>
    ensures { IfOk result (λ s. s ≡ by_choice (scope_of scope.now) item alone manner gathered (arg (scope_of scope.now) (arg_of expr association.now)) range operand) }
{
    match manner {
        Manner::ByPlace => {
            drop(operand);
            Ok(ItemStep::Ended(stopped(scope, gathered, association)))
        }
        Manner::Either | Manner::ByChoice => {
            let range = some_values(alone, scope.place(association.span.from), range);
            further(
                alloc,
                scope,
                item,
                Manner::ByChoice,
                gathered,
                range,
                operand,
            )
        }
    }
}

fn by_others(
    alloc: Global,
    scope: &Scope,
    item: u32,
    last: bool,
    gathered: Gathered,
    association: &Arg<Expr>,
    operand: ReadOperand,
) -> Result<ItemStep, Starved>
    ensures { IfOk result (λ s. s ≡ by_others (scope_of scope.now) item last gathered (arg (scope_of scope.now) (arg_of expr association.now)) operand) }
{
    if !last {
        drop(operand);
        return Ok(ItemStep::Ended(stopped(scope, gathered, association)));
    }
    let place = operand.place;
    let seen = match value_read(alloc, scope, operand) {
        Ok(seen) => seen,
        Err(error) => {
            drop(gathered);
            return Err(error);
        }
    };
    match rest_gathered(alloc, scope, item, gathered, place, seen) {
        Ok(items) => Ok(ItemStep::Ended(items)),
        Err(error) => Err(error),
    }
}

/// What an association leads to, after so many others, which is the last one or isn't. `Err` where memory was refused.
pub(crate) fn item_step(
    alloc: Global,
    scope: &Scope,
    item: u32,
    bounds: Bounds,
    before: usize,
    last: bool,
    manner: Manner,
    gathered: Gathered,
    association: &Arg<Expr>,
    sort: ReadSort,
) -> Result<ItemStep, Starved>
    ensures { IfOk result (λ s. s ≡ item_step (scope_of scope.now) item bounds before last manner gathered (arg (scope_of scope.now) (arg_of expr association.now)) sort) }
{
    match sort {
        ReadSort::Positional(operand) => {
            let range = position_range(bounds, before);
            by_place(
                alloc,
                scope,
                item,
                manner,
                gathered,
                association,
                range,
                operand,
            )
        }
        ReadSort::Chosen(range, operand) => {
            let alone = before == 0 && last;
            by_choice(
                alloc,
                scope,
                item,
                alone,
                manner,
                gathered,
                association,
                range,
                operand,
            )
        }
        ReadSort::Rest(operand) => {
            by_others(alloc, scope, item, last, gathered, association, operand)
        }
        ReadSort::Misfit => Ok(ItemStep::Ended(stopped(scope, gathered, association))),
    }
}
