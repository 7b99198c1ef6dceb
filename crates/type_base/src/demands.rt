//! What rules demand of operands.

ghost use Rattle.std.specs.Prelude.{◌≡◌, IfOk, Some};
ghost use Rattle.type_base.specs.Demands.{broken, fitting, is_comparable, is_integer, is_ordered, is_truth, is_whole, made, meets, number_as, operand, placed_number, refused, takes_numbers};
ghost use Rattle.type_base.specs.declared.seen.Seen.TheVariants as seen;

use crate::Starved;
use crate::seen::{Demand, Seen};
use crate::world::{Discrete, Form, World};
use ada_values::{Place, Value};
use front_codes::{Code, Refusal};
use sqlite_items::Boxed;
use std::alloc::Global;
use typed_units::{Expr, ExprNode};

/// A rule that is broken at a place.
pub fn refused(code: Code, place: Place) -> Seen
    ensures { result ≡ refused code place }
{
    Seen::Refused(Refusal { code, place })
}

/// An expression at a place, of a subtype's number.
pub fn made(
    alloc: Global,
    place: Place,
    subtype: u32,
    node: ExprNode<Expr>,
) -> Result<Expr, Starved>
    ensures { IfOk result (λ x. x ≡ made place subtype node) }
{
    let node = Boxed::new(alloc, node)?;
    Ok(Expr {
        place,
        subtype,
        node,
    })
}

/// An expression of a type, whose subtype is the type itself.
pub fn typed(alloc: Global, place: Place, ty: u32, node: ExprNode<Expr>) -> Result<Seen, Starved>
    ensures { IfOk result (λ s. s ≡ seen.Typed ty (made place ty node)) }
{
    match made(alloc, place, ty, node) {
        Ok(x) => Ok(Seen::Typed(ty, x)),
        Err(error) => Err(error),
    }
}

impl Discrete {
    /// Whether it is that of an integer type.
    pub fn is_whole(self) -> bool
        ensures { result ≡ is_whole self }
    {
        match self {
            Discrete::Signed | Discrete::Modular => true,
            Discrete::Enumeration => false,
        }
    }
}

impl Form {
    /// Whether it is an integer subtype's.
    pub fn is_integer(self) -> bool
        ensures { result ≡ is_integer self }
    {
        match self {
            Form::Number(discrete, _) => discrete.is_whole(),
            _ => false,
        }
    }

    /// Whether it is that of a subtype of an integer or enumeration type; Boolean isn't one here.
    pub fn is_ordered(self) -> bool
        ensures { result ≡ is_ordered self }
    {
        match self {
            Form::Number(_, _) => true,
            _ => false,
        }
    }

    /// Whether it is no array's of an unconstrained subtype.
    pub fn is_comparable(self) -> bool
        ensures { result ≡ is_comparable self }
    {
        match self {
            Form::Array { bounds, .. } => bounds.is_some(),
            _ => true,
        }
    }

    /// Whether it is Boolean's.
    pub fn is_truth(self) -> bool
        ensures { result ≡ is_truth self }
    {
        match self {
            Form::Truth => true,
            _ => false,
        }
    }

    /// Whether a subtype of this form meets a demand.
    pub fn meets(self, demand: Demand) -> bool
        ensures { result ≡ meets demand self }
    {
        match demand {
            Demand::Any => true,
            Demand::Integer => self.is_integer(),
            Demand::Ordered => self.is_ordered(),
            Demand::Comparable => self.is_comparable(),
            Demand::Truth => self.is_truth(),
        }
    }
}

fn takes_numbers(demand: Demand) -> bool
    ensures { result ≡ takes_numbers demand }
{
    match demand {
        Demand::Truth => false,
        _ => true,
    }
}

fn fitting(demand: Demand, code: Code, place: Place, ty: u32, x: Expr, form: Option<Form>) -> Seen
    ensures { result ≡ fitting demand code place ty x form }
{
    match form {
        Some(form) => {
            if form.meets(demand) {
                Seen::Typed(ty, x)
            } else {
                refused(code, place)
            }
        }
        None => Seen::Unknown,
    }
}

/// An operand at a place, of whose subtype a rule demands something; `Refused` by that rule where it isn't as demanded.
pub fn operand(world: &World, demand: Demand, code: Code, place: Place, seen: Seen) -> Seen
    ensures { result ≡ operand world.now demand code place seen }
{
    match seen {
        Seen::Refused(refusal) => Seen::Refused(refusal),
        Seen::Unknown => Seen::Unknown,
        Seen::Number(number) => {
            if takes_numbers(demand) {
                Seen::Number(number)
            } else {
                refused(code, place)
            }
        }
        Seen::Typed(ty, x) => {
            let form = world.form(x.subtype);
            fitting(demand, code, place, ty, x, form)
        }
    }
}

/// A number at a place that is to be of a type takes it, where that is an integer type with the number in its base range.
/// It is `Refused` by L29 where the base range doesn't have it, and by the rule at the other place where the type is no
/// integer type.
pub fn placed_number(
    alloc: Global,
    world: &World,
    code: Code,
    other: Place,
    place: Place,
    ty: u32,
    number: i128,
) -> Result<Seen, Starved>
    ensures { IfOk result (λ s. s ≡ placed_number world.now code other place ty number) }
{
    match world.form(ty) {
        None => Ok(Seen::Unknown),
        Some(Form::Number(discrete, scalar)) => {
            if !discrete.is_whole() {
                Ok(refused(code, other))
            } else if scalar.base_lo <= number && number <= scalar.base_hi {
                typed(alloc, place, ty, ExprNode::Static(Value::Int(number)))
            } else {
                Ok(refused(Code::L29, place))
            }
        }
        Some(_) => Ok(refused(code, other)),
    }
}
