//! `'Succ`, `'Pred`, `'Pos` and `'Val` (Ada RM 3.5, 3.5.5).

ghost use Rattle.std.specs.Prelude.{◌≡◌, false, IfOk, None, Some, true, if◌then◌else◌};
ghost use Rattle.ada_values.specs.Scalars.{in_base};
ghost use Rattle.attribute_rules.specs.Mappings.{mapped_by};
ghost use Rattle.reading_scope.specs.Scopes.{scope_of};
ghost use Rattle.type_base.specs.Lookups.{form_at};
ghost use Rattle.type_base.specs.Results.{number_in};
ghost use Rattle.typing_rules.specs.Attributes.{is_mapped, literal, literal_by, literal_of, mapping_by, mapping_of, next, next_of, next_value, position, static_in, unfit};
ghost use Rattle.typing_rules.specs.Faults.{mapped_want};
ghost use Rattle.typing_rules.specs.Values.{value_of};
ghost use Rattle.typing_rules.specs.declared.prefix.Prefix.TheVariants as prefix';

use crate::earlier::unfit_prefix;
use ada_values::{Place, Scalar, Value};
use expression_rules::number_in;
use name_values::{of_type, seen_as, type_of};
use reading_scope::Scope;
use std::alloc::Global;
use type_base::{Code, Discrete, Form, INTEGER_BASE, Seen, Starved, Want, refused};
use typed_units::{Expr, ExprNode};
use typing_rules::{Mapping, Prefix};

/// Whether such an attribute is in the profile: of integer and enumeration types but modular ones, `'Pos` and `'Val` of
/// enumerations alone.
fn is_mapped(mapping: Mapping, discrete: Discrete) -> bool
    ensures { result ≡ is_mapped mapping discrete }
{
    match mapping {
        Mapping::Pos | Mapping::Val => match discrete {
            Discrete::Enumeration => true,
            _ => false,
        },
        Mapping::Succ | Mapping::Pred => match discrete {
            Discrete::Modular => false,
            _ => true,
        },
    }
}

fn mapping_by(
    place: Place,
    mapping: Mapping,
    tick: Place,
    subtype: u32,
    form: Option<Form>,
) -> Prefix
    ensures { result ≡ mapping_by place mapping tick subtype form }
{
    match form {
        Some(Form::Number(discrete, _)) => {
            if is_mapped(mapping, discrete) {
                Prefix::Mapping(mapping, tick, subtype)
            } else {
                Prefix::Value(refused(Code::L19, place))
            }
        }
        Some(_) => Prefix::Value(refused(Code::L19, place)),
        None => Prefix::Value(Seen::Unknown),
    }
}

fn no_mapping(alloc: Global, scope: &Scope, place: Place, prefix: Prefix) -> Result<Prefix, Starved>
    ensures { IfOk result (λ f. f ≡ prefix'.Value (unfit place (value_of (scope_of scope.now) place prefix))) }
{
    match unfit_prefix(alloc, scope, place, prefix) {
        Ok(seen) => Ok(Prefix::Value(seen)),
        Err(error) => Err(error),
    }
}

/// Such an attribute of a prefix, before its argument.
pub(crate) fn mapping_of(
    alloc: Global,
    scope: &Scope,
    place: Place,
    mapping: Mapping,
    tick: Place,
    prefix: Prefix,
) -> Result<Prefix, Starved>
    ensures { IfOk result (λ f. f ≡ mapping_of (scope_of scope.now) place mapping tick prefix) }
{
    match prefix {
        Prefix::Subtype(subtype) => {
            let form = scope.world().form(subtype);
            Ok(mapping_by(place, mapping, tick, subtype, form))
        }
        Prefix::Package => no_mapping(alloc, scope, place, Prefix::Package),
        Prefix::Routine(routine) => no_mapping(alloc, scope, place, Prefix::Routine(routine)),
        Prefix::Called(routine, arguments) => {
            no_mapping(alloc, scope, place, Prefix::Called(routine, arguments))
        }
        Prefix::Mapping(other, at, subtype) => {
            no_mapping(alloc, scope, place, Prefix::Mapping(other, at, subtype))
        }
        Prefix::Range(range) => no_mapping(alloc, scope, place, Prefix::Range(range)),
        Prefix::Constant(ty, x) => no_mapping(alloc, scope, place, Prefix::Constant(ty, x)),
        Prefix::Part(part) => no_mapping(alloc, scope, place, Prefix::Part(part)),
        Prefix::Value(seen) => no_mapping(alloc, scope, place, Prefix::Value(seen)),
    }
}

/// The number after another, where the base range has it.
#[tactic(auto, using(crate::proofs::Steps::up_in))]
fn after_in(number: i128, scalar: Scalar) -> Option<i128>
    ensures { result ≡ if in_base scalar (next true number) then Some (next true number) else None }
{
    if number >= scalar.base_hi {
        return None;
    }
    let after = number + 1;
    if scalar.base_lo <= after {
        Some(after)
    } else {
        None
    }
}

/// The number before another, where the base range has it.
#[tactic(auto, using(crate::proofs::Steps::down_in))]
fn before_in(number: i128, scalar: Scalar) -> Option<i128>
    ensures { result ≡ if in_base scalar (next false number) then Some (next false number) else None }
{
    if number <= scalar.base_lo {
        return None;
    }
    let before = number - 1;
    if before <= scalar.base_hi {
        Some(before)
    } else {
        None
    }
}

fn next_in(up: bool, number: i128, scalar: Scalar) -> Option<i128>
    ensures { result ≡ if in_base scalar (next up number) then Some (next up number) else None }
{
    if up {
        after_in(number, scalar)
    } else {
        before_in(number, scalar)
    }
}

fn static_at(
    alloc: Global,
    scope: &Scope,
    place: Place,
    subtype: u32,
    number: i128,
) -> Result<Seen, Starved>
    ensures { IfOk result (λ s. s ≡ static_in (scope_of scope.now) place subtype number (form_at (scope_of scope.now).world subtype)) }
{
    match scope.world().form(subtype) {
        Some(Form::Number(_, scalar)) => {
            if scalar.base_lo <= number && number <= scalar.base_hi {
                let node = ExprNode::Static(Value::Int(number));
                seen_as(alloc, scope, place, subtype, node)
            } else {
                Ok(refused(Code::L29, place))
            }
        }
        _ => Ok(Seen::Unknown),
    }
}

fn next_static(
    alloc: Global,
    scope: &Scope,
    place: Place,
    up: bool,
    subtype: u32,
    number: i128,
) -> Result<Seen, Starved>
    ensures { IfOk result (λ s. s ≡ static_in (scope_of scope.now) place subtype (next up number) (form_at (scope_of scope.now).world subtype)) }
{
    match scope.world().form(subtype) {
        Some(Form::Number(_, scalar)) => match next_in(up, number, scalar) {
            Some(number) => {
                let node = ExprNode::Static(Value::Int(number));
                seen_as(alloc, scope, place, subtype, node)
            }
            None => Ok(refused(Code::L29, place)),
        },
        _ => Ok(Seen::Unknown),
    }
}

fn next_of(
    alloc: Global,
    scope: &Scope,
    place: Place,
    up: bool,
    tick: Place,
    subtype: u32,
    x: Expr,
) -> Result<Seen, Starved>
    ensures { IfOk result (λ s. s ≡ next_of (scope_of scope.now) place up tick subtype x (number_in x)) }
{
    match number_in(&x) {
        Some(number) => {
            drop(x);
            next_static(alloc, scope, place, up, subtype, number)
        }
        None => {
            let node = if up {
                ExprNode::Succ(tick, x)
            } else {
                ExprNode::Pred(tick, x)
            };
            seen_as(alloc, scope, place, subtype, node)
        }
    }
}

fn next_value(
    alloc: Global,
    scope: &Scope,
    place: Place,
    up: bool,
    tick: Place,
    subtype: u32,
    seen: Seen,
) -> Result<Seen, Starved>
    ensures { IfOk result (λ s. s ≡ next_value (scope_of scope.now) place up tick subtype seen) }
{
    match seen {
        Seen::Typed(ty, x) => next_of(alloc, scope, place, up, tick, ty, x),
        Seen::Refused(refusal) => Ok(Seen::Refused(refusal)),
        Seen::Unknown => Ok(Seen::Unknown),
        Seen::Number(number) => Ok(Seen::Number(number)),
    }
}

fn position(alloc: Global, scope: &Scope, place: Place, seen: Seen) -> Result<Seen, Starved>
    ensures { IfOk result (λ s. s ≡ position (scope_of scope.now) place seen) }
{
    match seen {
        Seen::Typed(_, x) => match number_in(&x) {
            Some(number) => {
                drop(x);
                Ok(Seen::Number(number))
            }
            None => seen_as(alloc, scope, place, INTEGER_BASE, ExprNode::Same(x)),
        },
        Seen::Refused(refusal) => Ok(Seen::Refused(refusal)),
        Seen::Unknown => Ok(Seen::Unknown),
        Seen::Number(number) => Ok(Seen::Number(number)),
    }
}

fn literal_of(
    alloc: Global,
    scope: &Scope,
    place: Place,
    subtype: u32,
    x: Expr,
) -> Result<Seen, Starved>
    ensures { IfOk result (λ s. s ≡ literal_of (scope_of scope.now) place subtype x (number_in x)) }
{
    match number_in(&x) {
        Some(number) => {
            drop(x);
            static_at(alloc, scope, place, subtype, number)
        }
        None => {
            let check = scope.world().check_of(subtype, &x);
            seen_as(alloc, scope, place, subtype, ExprNode::Convert(check, x))
        }
    }
}

fn literal_by(
    alloc: Global,
    scope: &Scope,
    place: Place,
    subtype: u32,
    operand: Place,
    x: Expr,
    form: Option<Form>,
) -> Result<Seen, Starved>
    ensures { IfOk result (λ s. s ≡ literal_by (scope_of scope.now) place subtype operand x form) }
{
    match form {
        Some(form) => {
            if form.is_integer() {
                literal_of(alloc, scope, place, subtype, x)
            } else {
                drop(x);
                Ok(refused(Code::L11, operand))
            }
        }
        None => {
            drop(x);
            Ok(Seen::Unknown)
        }
    }
}

/// The literal at a position, which is of any integer type.
fn literal(
    alloc: Global,
    scope: &Scope,
    place: Place,
    subtype: u32,
    operand: Place,
    seen: Seen,
) -> Result<Seen, Starved>
    ensures { IfOk result (λ s. s ≡ literal (scope_of scope.now) place subtype operand seen) }
{
    match seen {
        Seen::Refused(refusal) => Ok(Seen::Refused(refusal)),
        Seen::Unknown => Ok(Seen::Unknown),
        Seen::Number(number) => static_at(alloc, scope, place, subtype, number),
        Seen::Typed(ty, x) => {
            let form = scope.world().form(ty);
            literal_by(alloc, scope, place, subtype, operand, x, form)
        }
    }
}

/// What the context gives to the argument of such an attribute of a subtype.
pub fn mapped_want(scope: &Scope, mapping: Mapping, subtype: u32) -> Want
    ensures { result ≡ mapped_want (scope_of scope.now) mapping subtype }
{
    match mapping {
        Mapping::Val => Want::Free,
        _ => Want::Subtype(type_of(scope.world(), subtype)),
    }
}

/// What such an attribute gives of its argument: `tick` is the place of its tick, `operand` that of the argument, and `seen`
/// what is seen of it with `mapped_want`. It is `Refused` by L11 where the argument isn't of the type, and by L29 where its
/// static value has none.
pub fn mapped_by(
    alloc: Global,
    scope: &Scope,
    place: Place,
    mapping: Mapping,
    tick: Place,
    subtype: u32,
    operand: Place,
    seen: Seen,
) -> Result<Seen, Starved>
    ensures { IfOk result (λ s. s ≡ mapped_by (scope_of scope.now) place mapping tick subtype operand seen) }
{
    match mapping {
        Mapping::Succ => {
            let seen = of_type(alloc, scope, Code::L11, subtype, operand, seen)?;
            next_value(alloc, scope, place, true, tick, subtype, seen)
        }
        Mapping::Pred => {
            let seen = of_type(alloc, scope, Code::L11, subtype, operand, seen)?;
            next_value(alloc, scope, place, false, tick, subtype, seen)
        }
        Mapping::Pos => {
            let seen = of_type(alloc, scope, Code::L11, subtype, operand, seen)?;
            position(alloc, scope, place, seen)
        }
        Mapping::Val => {
            let ty = type_of(scope.world(), subtype);
            literal(alloc, scope, place, ty, operand, seen)
        }
    }
}
