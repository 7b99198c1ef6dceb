//! The subtypes of a program.

ghost use Rattle.std.specs.Prelude.{All, ◌≡◌, [], ◌∷◌, ◌++◌, length, slice_get, OnErr, OnOk};
ghost use Rattle.type_base.specs.Lookups.{form_in};
ghost use Rattle.type_base.specs.Moduli.{HasModulus};
ghost use Rattle.type_base.specs.Results.{computed, widened};

use crate::world::{Form, Subtype};
use ada_values::{Op, OpFault, Scalar, combine};
use sqlite_items::Items;
use std::alloc::{AllocError, Global};
use std::marker::Model;

/// The subtypes of a program by their numbers, of which each modulus is from 2 to 2^64. Contracts see the list of them.
pub struct Subtypes {
    items: Items<Subtype>,
}

// Written out, so that crates that let these go need no proof of their own.
impl Drop for Subtypes {
    fn drop(self) {
        let Subtypes { items } = self;
        drop(items);
    }
}

impl Model for Subtypes {
    ghost use Rattle.std.specs.Prelude.{List, All};
    ghost use Rattle.type_base.specs.declared.world.Subtype.{Subtype};
    ghost use Rattle.type_base.specs.Moduli.{HasModulus};

    ghost Value = { List Subtype };

    ghost view = { λ s. s.items };

    ghost invariant = { λ s. All HasModulus s.items };
}

impl Subtypes {
    /// No subtypes.
    pub fn new(alloc: Global) -> Subtypes
        ensures { result ≡ [] }
    {
        Subtypes {
            items: Items::new(alloc),
        }
    }

    /// How many there are, which is the number of the next.
    pub fn len(&self) -> usize
        ensures { result ≡ length self.now }
    {
        self.items.len()
    }

    /// That each modulus is from 2 to 2^64.
    pub fn are_sound(&self)
        ensures { All HasModulus self.now }
    {
        let _items = &self.items;
    }

    /// The subtype of a number.
    pub fn get(&self, number: u32) -> Option<Subtype>
        ensures { result ≡ slice_get self.now number }
    {
        self.items.get(number as usize).copied()
    }

    /// The form of the subtype of a number.
    pub fn form(&self, number: u32) -> Option<Form>
        ensures { result ≡ form_in (slice_get self.now number) }
    {
        match self.get(number) {
            Some(subtype) => Some(subtype.form),
            None => None,
        }
    }

    /// Adds a subtype at the end. A modulus, where it has one, is from 2 to 2^64.
    pub fn push(&mut self, subtype: Subtype) -> Result<(), AllocError>
        requires { HasModulus subtype }
        ensures ok { OnOk result (self.new ≡ self.old ++ subtype ∷ []) }
        ensures err { OnErr result (self.new ≡ self.old) }
    {
        self.items.push(subtype)
    }

    /// The scalar subtype of a number, and what an operation on numbers gives in its type: the exact result, or that modulo
    /// the type's modulus. The errors are those of `combine`, `Overflow` where the result has more than 128 bits. None
    /// where the subtype isn't scalar.
    pub fn computed(
        &self,
        number: u32,
        op: Op,
        a: i128,
        b: i128,
    ) -> Option<(Scalar, Result<i128, OpFault>)>
        ensures { result ≡ computed op a b (form_in (slice_get self.now number)) }
    {
        match self.items.get(number as usize) {
            Some(subtype) => match subtype.form {
                Form::Number(_, scalar) => { Some((scalar, combine(op, &widened(scalar), a, b))) }
                _ => None,
            },
            None => None,
        }
    }
}

/// A scalar subtype with the numbers of 128 bits for its base range.
pub fn widened(scalar: Scalar) -> Scalar
    ensures { result ≡ widened scalar }
{
    Scalar {
        lo: scalar.lo,
        hi: scalar.hi,
        base_lo: i128::MIN,
        base_hi: i128::MAX,
        modulus: scalar.modulus,
    }
}
