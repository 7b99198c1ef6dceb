//! What the context gives an expression, what is known of its range, and what is checked where it is passed on.

ghost use Rattle.std.specs.Prelude.{◌≡◌};
ghost use Rattle.std.specs.Option.{option_copied};
ghost use Rattle.type_base.specs.Demands.{array_bounds, bounds_at, check_in, check_of, fitted, includes, integer_of, integer_or, is_one, known, same_bounds, wanted_integer, wanted_type};
ghost use Rattle.type_base.specs.Lookups.{form_at};

use crate::seen::Want;
use crate::standard::INTEGER_BASE;
use crate::world::{Form, World};
use ada_values::Value;
use typed_units::{Bounds, Expr, ExprNode, Fitted};

fn array_bounds(form: Option<Form>) -> Option<Bounds>
    ensures { result ≡ array_bounds form }
{
    match form {
        Some(Form::Array { bounds, .. }) => bounds,
        _ => None,
    }
}

fn same_bounds(left: Option<Bounds>, right: Option<Bounds>) -> bool
    ensures { result ≡ same_bounds left right }
{
    match left {
        None => right.is_none(),
        Some(b) => match right {
            None => false,
            Some(c) => b.first == c.first && b.last == c.last,
        },
    }
}

fn includes(outer: Bounds, inner: Option<Bounds>) -> bool
    ensures { result ≡ includes outer inner }
{
    match inner {
        None => false,
        Some(inner) => outer.first <= inner.first && inner.last <= outer.last,
    }
}

fn check_in(bounds: Option<Bounds>, known: Option<Bounds>) -> Option<Bounds>
    ensures { result ≡ check_in bounds known }
{
    match bounds {
        None => None,
        Some(bounds) => {
            if includes(bounds, known) {
                None
            } else {
                Some(bounds)
            }
        }
    }
}

fn integer_of(world: &World, ty: Option<u32>) -> u32
    ensures { result ≡ integer_of world.now ty }
{
    match ty {
        None => INTEGER_BASE,
        Some(ty) => match world.form(ty) {
            Some(Form::Number(discrete, _)) => {
                if discrete.is_whole() {
                    ty
                } else {
                    INTEGER_BASE
                }
            }
            _ => INTEGER_BASE,
        },
    }
}

impl World {
    /// Whether two subtypes of one type are one, where they are of arrays: both are unconstrained, or both have the same
    /// bounds (Ada RM 3.6).
    pub fn is_one(&self, left: u32, right: u32) -> bool
        ensures { result ≡ is_one self.now left right }
    {
        same_bounds(
            array_bounds(self.form(left)),
            array_bounds(self.form(right)),
        )
    }

    /// The type that the context gives, where it gives one.
    pub fn wanted_type(&self, want: Want) -> Option<u32>
        ensures { result ≡ wanted_type self.now want }
    {
        match want {
            Want::Free | Want::Unknown => None,
            Want::Type(ty) => Some(ty),
            Want::Subtype(subtype) => self.type_of(subtype),
        }
    }

    /// The type that a universal number takes beside no other operand: that of the context where that is an integer type,
    /// else Integer's.
    pub fn wanted_integer(&self, want: Want) -> u32
        ensures { result ≡ wanted_integer self.now want }
    {
        integer_of(self, self.wanted_type(want))
    }

    /// The bounds of a scalar subtype.
    pub fn bounds(&self, subtype: u32) -> Option<Bounds>
        ensures { result ≡ bounds_at self.now subtype }
    {
        match self.form(subtype) {
            Some(Form::Number(_, scalar)) => Some(Bounds {
                first: scalar.lo,
                last: scalar.hi,
            }),
            _ => None,
        }
    }

    /// What is known of an expression's range: its value where it is static, else the bounds of its subtype.
    pub fn known(&self, x: &Expr) -> Option<Bounds>
        ensures { result ≡ known self.now x.now }
    {
        match x.node.get() {
            ExprNode::Static(Value::Int(number)) => Some(Bounds {
                first: *number,
                last: *number,
            }),
            _ => self.bounds(x.subtype),
        }
    }

    /// The bounds of the range check of an expression that is to be of a subtype, None where its known range lies within.
    pub fn check_of(&self, subtype: u32, x: &Expr) -> Option<Bounds>
        ensures { result ≡ check_of self.now subtype x.now }
    {
        check_in(self.bounds(subtype), self.known(x))
    }

    /// An expression that is to be of a subtype, with its range check.
    pub fn fitted(&self, subtype: u32, x: Expr) -> Fitted<Expr>
        ensures { result ≡ fitted self.now subtype x }
    {
        let bounds = self.check_of(subtype, &x);
        Fitted { bounds, value: x }
    }
}
