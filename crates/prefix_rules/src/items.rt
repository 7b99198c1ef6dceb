//! Items of arrays (Ada RM 4.1.1).

ghost use Rattle.std.specs.Prelude.{◌≡◌, IfOk};
ghost use Rattle.front_codes.specs.declared.codes.Code.TheVariants as code;
ghost use Rattle.reading_scope.specs.Scopes.{scope_of};
ghost use Rattle.type_base.specs.Demands.{includes};
ghost use Rattle.typed_units.specs.declared.expressions.ExprNode.TheVariants as node;
ghost use Rattle.typing_rules.specs.Fits.{seen_then};
ghost use Rattle.typing_rules.specs.Lookups.{seen_as};
ghost use Rattle.typing_rules.specs.Names.{index_placed, is_checked, item_of, of_type};

use crate::selections::further;
use ada_values::Place;
use name_values::{of_type, seen_as};
use reading_scope::Scope;
use std::alloc::Global;
use type_base::{Code, Seen, Starved, World};
use typed_units::{Bounds, Expr, ExprNode, Indexed, Step};
use typing_rules::{Found, Part, Prefix};

/// An array subtype: the numbers of its index's and its items' subtypes, and the bounds of a constrained one.
#[derive(Clone, Copy)]
pub struct ArrayForm {
    pub index: u32,
    pub bounds: Option<Bounds>,
    pub item: u32,
}

/// Whether bounds include others, which may not be known.
pub(crate) fn includes(outer: Bounds, inner: Option<Bounds>) -> bool
    ensures { result ≡ includes outer inner }
{
    match inner {
        None => false,
        Some(inner) => outer.first <= inner.first && inner.last <= outer.last,
    }
}

/// Whether an index of an array with these bounds is checked.
fn is_checked(world: &World, bounds: Option<Bounds>, x: &Expr) -> bool
    ensures { result ≡ is_checked world.now bounds x.now }
{
    match bounds {
        None => true,
        Some(bounds) => !includes(bounds, world.known(x)),
    }
}

fn index_placed(scope: &Scope, bounds: Option<Bounds>, seen: Seen) -> Found<Indexed<Expr>>
    ensures { result ≡ index_placed (scope_of scope.now) bounds seen }
{
    match seen {
        Seen::Refused(refusal) => Found::Refused(refusal),
        Seen::Unknown | Seen::Number(_) => Found::Unknown,
        Seen::Typed(_, x) => {
            let checked = is_checked(scope.world(), bounds, &x);
            Found::Is(Indexed { checked, value: x })
        }
    }
}

/// An index at a place of an array with an index of this subtype and these bounds. It is `Refused` by L14 where it isn't of
/// the index's type. `Err` where memory was refused.
pub fn index_found(
    alloc: Global,
    scope: &Scope,
    index: u32,
    bounds: Option<Bounds>,
    place: Place,
    seen: Seen,
) -> Result<Found<Indexed<Expr>>, Starved>
    ensures { IfOk result (λ f. f ≡ index_placed (scope_of scope.now) bounds (of_type (scope_of scope.now) code.L14 index place seen)) }
{
    match of_type(alloc, scope, Code::L14, index, place, seen) {
        Ok(seen) => Ok(index_placed(scope, bounds, seen)),
        Err(error) => Err(error),
    }
}

/// The item of an array, which is an object or a part of one, at an index. `Err` where memory was refused.
pub fn item_of(part: Part, array: ArrayForm, index: Found<Indexed<Expr>>) -> Result<Prefix, Starved>
    ensures { IfOk result (λ f. f ≡ item_of part (record { index = array.index; bounds = array.bounds; item = array.item }) index) }
{
    match index {
        Found::Refused(refusal) => {
            drop(part);
            Ok(Prefix::Value(Seen::Refused(refusal)))
        }
        Found::Unknown => {
            drop(part);
            Ok(Prefix::Value(Seen::Unknown))
        }
        Found::Is(index) => further(part, array.item, Step::Item(array.bounds, index)),
    }
}

/// The item, of this subtype, of an array's value at an index. `Err` where memory was refused.
pub fn array_item(
    alloc: Global,
    scope: &Scope,
    place: Place,
    x: Expr,
    item: u32,
    index: Found<Indexed<Expr>>,
) -> Result<Seen, Starved>
    ensures { IfOk result (λ s. s ≡ seen_then index (λ i. seen_as (scope_of scope.now) place item (node.Item x i))) }
{
    match index {
        Found::Refused(refusal) => {
            drop(x);
            Ok(Seen::Refused(refusal))
        }
        Found::Unknown => {
            drop(x);
            Ok(Seen::Unknown)
        }
        Found::Is(index) => seen_as(alloc, scope, place, item, ExprNode::Item(x, index)),
    }
}
