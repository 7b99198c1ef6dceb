//! The form of a file, and why a file has none.

ghost use Rattle.std.specs.Prelude.{◌≡◌};

use ada_values::{NameList, NameText, Place, Starved};
use sqlite_items::Items;
use typed_units::Relation;

/// A side of an assertion.
#[derive(Debug, Drop)]
pub enum Operand {
    /// A number of Integer in a form.
    Number(u32),
    /// A name as it is written.
    Name(NameText),
}

/// An operand and the place of its only token.
#[derive(Debug, Drop)]
pub struct Placed {
    pub place: Place,
    pub operand: Operand,
}

/// `pragma Assert (LEFT RELATION RIGHT);`
#[derive(Debug, Drop)]
pub struct Assertion {
    /// The place of the pragma's first token.
    pub place: Place,
    pub left: Placed,
    pub relation: Relation,
    pub right: Placed,
}

/// Assertions in the order of the text.
pub type AssertionList = Items<Assertion>;

/// A procedure with `in` parameters of type Integer whose statements are assertions.
///
/// It is a form where `is_form` says so.
#[derive(Debug, Drop)]
pub struct FirstForm {
    pub name: NameText,
    pub params: NameList,
    pub assertions: AssertionList,
}

/// Why a file has no form.
#[derive(Clone, Copy, Debug, PartialEq, Eq)]
pub enum FormFault {
    /// The file isn't of the form.
    NotBuilt,
    /// Memory was refused.
    Starved,
}

impl From<Starved> for FormFault {
    ghost use Rattle.first_form.specs.declared.form.FormFault.TheVariants.{Starved};

    ghost from_gives = { λ _ fault. fault ≡ Starved };

    fn from(_error: Starved) -> FormFault {
        FormFault::Starved
    }
}
