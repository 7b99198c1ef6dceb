//! Parts of units, each taken as what it is.

ghost use Rattle.std.specs.Prelude.{◌≡◌, IfOk};
ghost use Rattle.tree_parts.specs.Parts.{context_from, end_name_from, names_from, private_from, source_unit_from, unit_from};

use crate::Starved;
use crate::chain::Chain;
use crate::missing::{missing_source_unit, missing_unit};
use crate::part::Edged;
use ada_syntax::{ContextItem, Decl, SourceUnit, Unit};
use ada_text::Span;
use sqlite_items::Items;
use std::alloc::Global;

/// What a phrase of a compilation unit became.
pub enum UnitPart {
    SourceUnit(SourceUnit),
    Context(Edged<Chain<ContextItem>>),
    Unit(Unit),
    Private(Option<Items<Decl>>),
    EndName(Option<Span>),
    Names(Chain<Span>),
}

impl Drop for UnitPart {
    fn drop(self) {
        match self {
            UnitPart::SourceUnit(part) => drop(part),
            UnitPart::Context(part) => drop(part),
            UnitPart::Unit(part) => drop(part),
            UnitPart::Private(part) => drop(part),
            UnitPart::EndName(_) => {}
            UnitPart::Names(part) => drop(part),
        }
    }
}

impl UnitPart {
    pub fn source_unit(self, alloc: Global) -> Result<SourceUnit, Starved>
        ensures { IfOk result (λ found. found ≡ source_unit_from self) }
    {
        match self {
            UnitPart::SourceUnit(source_unit) => Ok(source_unit),
            other => {
                drop(other);
                missing_source_unit(alloc)
            }
        }
    }

    pub fn context(self, alloc: Global) -> Edged<Chain<ContextItem>>
        ensures { result ≡ context_from self }
    {
        match self {
            UnitPart::Context(context) => context,
            other => {
                drop(other);
                Edged {
                    edge: None,
                    value: Chain::new(alloc),
                }
            }
        }
    }

    pub fn names(self, alloc: Global) -> Chain<Span>
        ensures { result ≡ names_from self }
    {
        match self {
            UnitPart::Names(names) => names,
            other => {
                drop(other);
                Chain::new(alloc)
            }
        }
    }

    pub fn unit(self, alloc: Global) -> Result<Unit, Starved>
        ensures { IfOk result (λ found. found ≡ unit_from self) }
    {
        match self {
            UnitPart::Unit(unit) => Ok(unit),
            other => {
                drop(other);
                missing_unit(alloc)
            }
        }
    }

    pub fn private(self) -> Option<Items<Decl>>
        ensures { result ≡ private_from self }
    {
        match self {
            UnitPart::Private(private) => private,
            other => {
                drop(other);
                None
            }
        }
    }

    pub fn end_name(self) -> Option<Span>
        ensures { result ≡ end_name_from self }
    {
        match self {
            UnitPart::EndName(end_name) => end_name,
            other => {
                drop(other);
                None
            }
        }
    }
}
