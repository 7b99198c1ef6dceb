//! Small parts of what the walk does.

ghost use Rattle.std.specs.Prelude.{◌≡◌, ◌∷◌, ◌++◌, false, IfOk};
ghost use Rattle.front_codes.specs.declared.codes.Code.TheVariants as code;
ghost use Rattle.reading_scope.specs.Scopes.{scope_of};
ghost use Rattle.syntax_view.specs.View.{expr, range_of};
ghost use Rattle.typing_rules.specs.declared.prefix.Prefix.TheVariants as prefix';
ghost use Rattle.typing_rules.specs.Aggregates.{no_subtype, qualified_as};
ghost use Rattle.typing_rules.specs.Fits.{fit, with_found};
ghost use Rattle.typing_rules.specs.Forms.{outer_want};
ghost use Rattle.typing_rules.specs.Lookups.{array_at, with_index};
ghost use Rattle.typing_rules.specs.Ranges.{choice_range, high_place, member_by};
ghost use Rattle.typing_rules.specs.Reading as reading;
ghost use Rattle.typing_rules.specs.Values.{value_of};
ghost use Rattle.expression_reader.specs.Reader.{is_indexed, left_want_by, right_want_by};

use crate::Starved;
use ada_syntax::{Expr, Range};
use ada_values::Place;
use aggregate_rules::{no_subtype, qualified_as};
use front_codes::Code;
use name_library::Spot;
use name_values::value_of;
use operand_rules::expression_place;
use range_rules::{choice_range, member_by, want_or, weaker};
use reading_scope::Scope;
use sqlite_items::Items;
use std::alloc::Global;
use type_base::{Family, Form, Formal, INTEGER_BASE, Parameter, Seen, Want, World};
use typed_units::{Bounds, Choice, Object};
use typing_rules::{Found, Gives, Prefix, Reach};
use value_rules::fit;

/// A list of numbers with one more in front. `Err` where memory was refused.
pub(crate) fn in_front(
    alloc: Global,
    number: u32,
    numbers: Items<u32>,
) -> Result<Items<u32>, Starved>
    ensures { IfOk result (λ all. all ≡ number ∷ numbers) }
{
    let mut all = Items::new(alloc);
    all.push(number)?;
    all.append(numbers)?;
    Ok(all)
}

/// Whether what stands in parentheses after a function with these formals and this result indexes its value.
pub(crate) fn is_indexed(world: &World, formals: &[Formal], subtype: u32) -> bool
    ensures { result ≡ is_indexed formals.now (array_at world.now subtype) }
{
    match formals {
        [] => match world.form(subtype) {
            Some(Form::Array { .. }) => true,
            _ => false,
        },
        [_, ..] => false,
    }
}

fn outer_want(scope: &Scope, family: Family, want: Want) -> Want
    ensures { result ≡ outer_want (scope_of scope.now) family want }
{
    match family {
        Family::Arithmetic(_) | Family::Connect(_) => weaker(scope.world(), want),
        Family::Compare(_) | Family::Power => Want::Free,
    }
}

/// What the context gives to the left operand, where the right one tells this type.
pub(crate) fn left_want(scope: &Scope, family: Family, want: Want, right: Option<u32>) -> Want
    ensures { result ≡ left_want_by (scope_of scope.now) family want right }
{
    match family {
        Family::Power => weaker(scope.world(), want),
        Family::Arithmetic(_) | Family::Compare(_) | Family::Connect(_) => {
            want_or(outer_want(scope, family, want), right)
        }
    }
}

/// What the context gives to the right operand, where the left one tells this type.
pub(crate) fn right_want(scope: &Scope, family: Family, want: Want, left: Option<u32>) -> Want
    ensures { result ≡ right_want_by (scope_of scope.now) family want left }
{
    match family {
        Family::Power => Want::Type(INTEGER_BASE),
        Family::Arithmetic(_) | Family::Compare(_) | Family::Connect(_) => {
            want_or(outer_want(scope, family, want), left)
        }
    }
}

/// The place where the second bound of a range begins, or the one expression that it is.
pub(crate) fn high_place(scope: &Scope, range: &Range<Expr>) -> Place
    ensures { result ≡ high_place (scope_of scope.now) (reading.range (scope_of scope.now) (range_of expr range.now)) (reading.range (scope_of scope.now) (range_of expr range.now)).high }
{
    match &range.high {
        Some(high) => expression_place(scope, high),
        None => expression_place(scope, &range.low),
    }
}

/// The parameters and indexes around, with one more index in front, which stands at a byte. `Err` where memory was refused.
pub(crate) fn with_one_index(
    alloc: Global,
    scope: &Scope,
    at: u32,
    subtype: u32,
) -> Result<Items<Parameter>, Starved>
    ensures { IfOk result (λ all. all ≡ (with_index (scope_of scope.now) at subtype).parameters) }
{
    let index = Parameter {
        spot: Spot {
            file: scope.place(at).file,
            at,
        },
        subtype,
        object: Object::Index(scope.number(at)),
    };
    let outer = Items::from_slice(alloc, scope.parameters)?;
    let mut all = Items::new(alloc);
    all.push(index)?;
    all.append(outer)?;
    Ok(all)
}

/// A membership test, by what is seen of what is tested and what the range reaches over. `Err` where memory was refused.
#[tactic(auto, using(range_rules::proofs::Placed::member_by_placed))]
pub(crate) fn member_read(
    alloc: Global,
    scope: &Scope,
    place: Place,
    is: bool,
    tested: Place,
    range: &Range<Expr>,
    seen: Seen,
    reach: Reach,
) -> Result<Seen, Starved>
    ensures { IfOk result (λ s. s ≡ member_by (scope_of scope.now) place is tested (reading.range (scope_of scope.now) (range_of expr range.now)) seen reach) }
{
    let low = expression_place(scope, &range.low);
    let high = high_place(scope, range);
    member_by(alloc, scope, place, is, tested, low, high, seen, reach)
}

/// The numbers that a choice has.
pub(crate) fn bounds_chosen(choice: Found<Choice>) -> Found<Bounds>
    ensures { result ≡ with_found choice_range choice }
{
    match choice {
        Found::Refused(refusal) => Found::Refused(refusal),
        Found::Unknown => Found::Unknown,
        Found::Is(choice) => Found::Is(choice_range(choice)),
    }
}

/// A qualified expression by what is seen at `at`. `Err` where memory was refused.
pub(crate) fn qualified_value(
    alloc: Global,
    scope: &Scope,
    place: Place,
    subtype: u32,
    at: Place,
    seen: Seen,
) -> Result<Prefix, Starved>
    ensures { IfOk result (λ f. f ≡ prefix'.Value (qualified_as (scope_of scope.now) place subtype (fit (scope_of scope.now).world code.L18 false subtype at seen))) }
{
    let fitted = fit(alloc, scope.world(), Code::L18, false, subtype, at, seen)?;
    let seen = qualified_as(alloc, scope, place, subtype, fitted)?;
    Ok(Prefix::Value(seen))
}

/// A qualification by what is no subtype. `Err` where memory was refused.
pub(crate) fn not_qualified(
    alloc: Global,
    scope: &Scope,
    place: Place,
    prefix: Prefix,
) -> Result<Prefix, Starved>
    ensures { IfOk result (λ f. f ≡ prefix'.Value (no_subtype place (value_of (scope_of scope.now) place prefix))) }
{
    let value = value_of(alloc, scope, place, prefix)?;
    Ok(Prefix::Value(no_subtype(place, value)))
}

/// The numbers that an association gives, before those that are given. `Err` where memory was refused.
pub(crate) fn also_given(gives: Gives, given: Items<u32>) -> Result<Items<u32>, Starved>
    ensures { IfOk result (λ all. all ≡ gives.numbers ++ given) }
{
    let Gives {
        mut numbers,
        by_others: _,
    } = gives;
    numbers.append(given)?;
    Ok(numbers)
}
