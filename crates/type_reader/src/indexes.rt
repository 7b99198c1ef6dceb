//! The index of an array type (Ada RM 3.6).

ghost use Rattle.std.specs.Prelude.{◌≡◌, IfOk};
ghost use Rattle.front_codes.specs.declared.codes.Code.TheVariants.{L20};
ghost use Rattle.reading_scope.specs.Scopes.{scope_of};
ghost use Rattle.statement_typing.specs.Checks.{and_also, refuse};
ghost use Rattle.statement_typing.specs.Subtypes.{heard};
ghost use Rattle.statement_typing.specs.Types.{discrete_form, discrete_mark, discrete_subtype, indexes, indexes_by, of_range, within_mark};
ghost use Rattle.static_rules.specs.Marks.{mark_as};
ghost use Rattle.syntax_view.specs.View.{bounds_of, expr, index_form_of, index_of};
ghost use Rattle.type_base.specs.declared.seen.Want.TheVariants as want';
ghost use Rattle.type_reader.specs.Parts.{index_within, open_index};
ghost use Rattle.typing_rules.specs.Fits.{with_found};
ghost use Rattle.typing_rules.specs.Reading as reading;

use crate::Starved;
use ada_syntax::{Bounds as Limits, Expr, ExprNode, Index, IndexForm};
use ada_values::Place;
use reading_scope::Scope;
use statement_rules::{with_refused, with_unknown};
use statement_typing::{Indexes, StaticRange};
use static_rules::{Mark, mark_of};
use std::alloc::Global;
use subtype_reader::{WrittenRange, expression_heard, index_range, loose, static_range};
use type_base::{Code, Entity, Form, Refusal, Want};
use typed_units::Bounds;
use typing_rules::Found;

// ---- an index by the name of its subtype

fn discrete_form(place: Place, number: u32, form: Option<Form>) -> Found<u32>
    ensures { result ≡ discrete_form place number form }
{
    match form {
        None => Found::Unknown,
        Some(form) => {
            if form.is_ordered() {
                Found::Is(number)
            } else {
                Found::Refused(Refusal {
                    code: Code::L20,
                    place,
                })
            }
        }
    }
}

/// The discrete subtype that a name at a place is, by what its identifiers stand for and what follows them.
fn discrete_mark(scope: &Scope, place: Place, mark: Mark) -> Found<u32>
    ensures { result ≡ discrete_mark (scope_of scope.now) place (mark_as mark.entry) }
{
    let refused = Refusal {
        code: Code::L20,
        place,
    };
    match mark.entity {
        Entity::Subtype(number) => match mark.rest {
            [] => discrete_form(place, number, scope.world().form(number)),
            [_, ..] => Found::Refused(refused),
        },
        Entity::Unknown => match mark.rest {
            [] => Found::Unknown,
            [_, ..] => Found::Refused(refused),
        },
        _ => Found::Refused(refused),
    }
}

/// An expression at a place that names no subtype.
fn no_subtype(alloc: Global, scope: &Scope, place: Place, e: &Expr) -> Result<Found<u32>, Starved>
    ensures { IfOk result (λ k. k ≡ and_also (refuse L20 place) (heard (reading.seen (scope_of scope.now) want'.Free (expr e.now)))) }
{
    match expression_heard(alloc, scope, e) {
        Ok(found) => {
            let refused = Refusal {
                code: Code::L20,
                place,
            };
            Ok(with_refused(refused, found))
        }
        Err(error) => Err(error),
    }
}

/// The number of the discrete subtype that an expression names; L20 is broken by one that doesn't.
#[tactic(auto, using(syntax_view::proofs::Forms::expr_has))]
fn discrete_subtype(alloc: Global, scope: &Scope, e: &Expr) -> Result<Found<u32>, Starved>
    ensures { IfOk result (λ k. k ≡ discrete_subtype (scope_of scope.now) (expr e.now)) }
{
    let place = scope.place(e.span.from);
    match e.node.get() {
        ExprNode::Name(name) => Ok(discrete_mark(scope, place, mark_of(scope, name))),
        ExprNode::Number(_) => no_subtype(alloc, scope, place, e),
        ExprNode::Null => no_subtype(alloc, scope, place, e),
        ExprNode::Group(_) => no_subtype(alloc, scope, place, e),
        ExprNode::Unary(_, _, _) => no_subtype(alloc, scope, place, e),
        ExprNode::Binary(_, _, _, _) => no_subtype(alloc, scope, place, e),
        ExprNode::Member(_, _, _, _) => no_subtype(alloc, scope, place, e),
    }
}

// ---- indexes

fn of_range(range: Found<StaticRange>) -> Found<Indexes>
    ensures { result ≡ of_range range }
{
    match range {
        Found::Refused(refusal) => Found::Refused(refusal),
        Found::Unknown => Found::Unknown,
        Found::Is(range) => Found::Is(Indexes {
            subtype: range.subtype,
            bounds: Some(range.bounds),
        }),
    }
}

fn within(subtype: u32, bounds: Found<Bounds>) -> Found<Indexes>
    ensures { result ≡ with_found (index_within subtype) bounds }
{
    match bounds {
        Found::Refused(refusal) => Found::Refused(refusal),
        Found::Unknown => Found::Unknown,
        Found::Is(bounds) => Found::Is(Indexes {
            subtype,
            bounds: Some(bounds),
        }),
    }
}

fn unconstrained(subtype: Found<u32>) -> Found<Indexes>
    ensures { result ≡ with_found open_index subtype }
{
    match subtype {
        Found::Refused(refusal) => Found::Refused(refusal),
        Found::Unknown => Found::Unknown,
        Found::Is(subtype) => Found::Is(Indexes {
            subtype,
            bounds: None,
        }),
    }
}

/// An index of a subtype with bounds.
fn within_mark(
    alloc: Global,
    scope: &Scope,
    subtype: Found<u32>,
    bounds: &Limits,
) -> Result<Found<Indexes>, Starved>
    ensures { IfOk result (λ i. i ≡ within_mark (scope_of scope.now) subtype (bounds_of bounds.now)) }
{
    match subtype {
        Found::Is(subtype) => {
            let range = WrittenRange::Bounds(&bounds.low, &bounds.high);
            let found = index_range(alloc, scope, subtype, range)?;
            Ok(within(subtype, found))
        }
        Found::Unknown => {
            let found = loose(alloc, scope, bounds)?;
            Ok(with_unknown(found))
        }
        Found::Refused(refusal) => {
            let found = loose(alloc, scope, bounds)?;
            Ok(with_refused(refusal, found))
        }
    }
}

/// An index by its first expression and what follows.
fn indexes_by(
    alloc: Global,
    scope: &Scope,
    first: &Expr,
    form: &IndexForm,
) -> Result<Found<Indexes>, Starved>
    ensures { IfOk result (λ i. i ≡ indexes_by (scope_of scope.now) (expr first.now) (index_form_of form.now)) }
{
    match form {
        IndexForm::Alone => {
            let range = static_range(alloc, scope, Want::Free, WrittenRange::Named(first))?;
            Ok(of_range(range))
        }
        IndexForm::UpTo(high) => {
            let range = static_range(alloc, scope, Want::Free, WrittenRange::Bounds(first, high))?;
            Ok(of_range(range))
        }
        IndexForm::Unconstrained => {
            let subtype = discrete_subtype(alloc, scope, first)?;
            Ok(unconstrained(subtype))
        }
        IndexForm::Within(bounds) => {
            let subtype = discrete_subtype(alloc, scope, first)?;
            within_mark(alloc, scope, subtype, bounds)
        }
    }
}

/// The index of an array type. `Err` where memory was refused.
pub(crate) fn indexes(
    alloc: Global,
    scope: &Scope,
    index: &Index,
) -> Result<Found<Indexes>, Starved>
    ensures { IfOk result (λ i. i ≡ indexes (scope_of scope.now) (index_of index.now)) }
{
    indexes_by(alloc, scope, &index.first, &index.form)
}
