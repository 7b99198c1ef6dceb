//! Conversions (Ada RM 4.6).

ghost use Rattle.std.specs.Prelude.{◌≡◌, IfOk, Some};
ghost use Rattle.reading_scope.specs.Scopes.{scope_of};
ghost use Rattle.typed_units.specs.declared.expressions.Expr.{out-Expr};
ghost use Rattle.typing_rules.specs.Names.{conversion, converted, convertible, number_converted, of_same, static_or, typed_converted, universal_converted};

use ada_values::{Place, Value};
use name_values::seen_as;
use reading_scope::Scope;
use std::alloc::Global;
use type_base::{Code, Form, Seen, Starved, made, refused};
use typed_units::{Bounds, Expr, ExprNode};

fn of_same(
    alloc: Global,
    scope: &Scope,
    place: Place,
    subtype: u32,
    x: Expr,
) -> Result<Seen, Starved>
    ensures { IfOk result (λ s. s ≡ of_same (scope_of scope.now) place subtype x) }
{
    let bounds = scope.world().check_of(subtype, &x);
    seen_as(alloc, scope, place, subtype, ExprNode::Convert(bounds, x))
}

fn static_or(
    alloc: Global,
    scope: &Scope,
    place: Place,
    subtype: u32,
    x: Expr,
    check: Option<Bounds>,
    value: Value,
) -> Result<Seen, Starved>
    ensures { IfOk result (λ s. s ≡ static_or (scope_of scope.now) place subtype x check value) }
{
    match check {
        None => {
            drop(x);
            seen_as(alloc, scope, place, subtype, ExprNode::Static(value))
        }
        Some(bounds) => {
            drop(value);
            let node = ExprNode::Convert(Some(bounds), x);
            seen_as(alloc, scope, place, subtype, node)
        }
    }
}

fn number_converted(
    alloc: Global,
    scope: &Scope,
    place: Place,
    subtype: u32,
    x: Expr,
    number: i128,
    form: Option<Form>,
) -> Result<Seen, Starved>
    ensures { IfOk result (λ s. s ≡ number_converted (scope_of scope.now) place subtype x number form) }
{
    match form {
        Some(Form::Number(_, scalar)) => {
            if scalar.base_lo <= number && number <= scalar.base_hi {
                let check = scope.world().check_of(subtype, &x);
                static_or(alloc, scope, place, subtype, x, check, Value::Int(number))
            } else {
                drop(x);
                Ok(refused(Code::L29, place))
            }
        }
        _ => of_same(alloc, scope, place, subtype, x),
    }
}

fn converted(
    alloc: Global,
    scope: &Scope,
    place: Place,
    subtype: u32,
    x: Expr,
) -> Result<Seen, Starved>
    ensures { IfOk result (λ s. s ≡ converted (scope_of scope.now) place subtype x (out-Expr x).node) }
{
    match x.node.get() {
        ExprNode::Static(Value::Int(number)) => {
            let number = *number;
            let form = scope.world().form(subtype);
            number_converted(alloc, scope, place, subtype, x, number, form)
        }
        ExprNode::Static(Value::Bool(truth)) => {
            let node = ExprNode::Static(Value::Bool(*truth));
            drop(x);
            seen_as(alloc, scope, place, subtype, node)
        }
        _ => of_same(alloc, scope, place, subtype, x),
    }
}

/// Whether a value of the latter of two subtypes, of these types and forms, may be converted to the former.
fn convertible(target: u32, own: u32, target_form: Option<Form>, own_form: Option<Form>) -> bool
    ensures { result ≡ convertible target own target_form own_form }
{
    match target_form {
        Some(Form::Array { .. }) => false,
        Some(Form::Number(discrete, _)) => match own_form {
            Some(Form::Number(other, _)) => {
                target == own || (discrete.is_whole() && other.is_whole())
            }
            _ => target == own,
        },
        _ => target == own,
    }
}

fn typed_converted(
    alloc: Global,
    scope: &Scope,
    place: Place,
    subtype: u32,
    operand: Place,
    target: Option<u32>,
    own: u32,
    x: Expr,
) -> Result<Seen, Starved>
    ensures { IfOk result (λ s. s ≡ typed_converted (scope_of scope.now) place subtype operand target own x) }
{
    let world = scope.world();
    match target {
        None => {
            drop(x);
            Ok(Seen::Unknown)
        }
        Some(target) => {
            if convertible(target, own, world.form(subtype), world.form(own)) {
                converted(alloc, scope, place, subtype, x)
            } else {
                drop(x);
                Ok(refused(Code::L18, operand))
            }
        }
    }
}

fn whole_converted(
    alloc: Global,
    scope: &Scope,
    place: Place,
    subtype: u32,
    operand: Place,
    number: i128,
    ty: u32,
    form: Form,
) -> Result<Seen, Starved>
    ensures { IfOk result (λ s. s ≡ universal_converted (scope_of scope.now) place subtype operand number (Some ty) (Some form)) }
{
    if !form.is_integer() {
        return Ok(refused(Code::L18, operand));
    }
    match made(alloc, operand, ty, ExprNode::Static(Value::Int(number))) {
        Ok(x) => number_converted(alloc, scope, place, subtype, x, number, Some(form)),
        Err(error) => Err(error),
    }
}

fn universal_converted(
    alloc: Global,
    scope: &Scope,
    place: Place,
    subtype: u32,
    operand: Place,
    number: i128,
    target: Option<u32>,
    form: Option<Form>,
) -> Result<Seen, Starved>
    ensures { IfOk result (λ s. s ≡ universal_converted (scope_of scope.now) place subtype operand number target form) }
{
    match target {
        None => Ok(Seen::Unknown),
        Some(ty) => match form {
            None => Ok(Seen::Unknown),
            Some(form) => {
                whole_converted(alloc, scope, place, subtype, operand, number, ty, form)
            }
        },
    }
}

/// The conversion at a place to a subtype of what is seen at another. It is `Refused` by L18 at the operand where that can't
/// be converted, and by L29 where a static value lies outside the base range. `Err` where memory was refused.
pub fn conversion(
    alloc: Global,
    scope: &Scope,
    place: Place,
    subtype: u32,
    operand: Place,
    seen: Seen,
) -> Result<Seen, Starved>
    ensures { IfOk result (λ s. s ≡ conversion (scope_of scope.now) place subtype operand seen) }
{
    match seen {
        Seen::Refused(refusal) => Ok(Seen::Refused(refusal)),
        Seen::Unknown => Ok(Seen::Unknown),
        Seen::Number(number) => {
            let target = scope.world().type_of(subtype);
            let form = scope.world().form(subtype);
            universal_converted(alloc, scope, place, subtype, operand, number, target, form)
        }
        Seen::Typed(own, x) => {
            let target = scope.world().type_of(subtype);
            typed_converted(alloc, scope, place, subtype, operand, target, own, x)
        }
    }
}
