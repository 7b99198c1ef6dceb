//! Parts of parameters and aspects, each taken as what it is.

ghost use Rattle.std.specs.Prelude.{◌≡◌};
ghost use Rattle.tree_parts.specs.Parts.{aspect_from, aspects_from, mode_from, param_from, params_from};

use crate::chain::Chain;
use crate::missing::{missing_sub_ind, nowhere};
use ada_syntax::{Aspect, Mode, Param};
use sqlite_items::Items;
use std::alloc::Global;

/// What a phrase of parameters and aspects became.
pub enum SubprogramPart {
    Params(Chain<Param>),
    Param(Param),
    Mode(Mode),
    Aspects(Chain<Aspect>),
    Aspect(Aspect),
}

impl Drop for SubprogramPart {
    fn drop(self) {
        match self {
            SubprogramPart::Params(part) => drop(part),
            SubprogramPart::Param(part) => drop(part),
            SubprogramPart::Mode(_) => {}
            SubprogramPart::Aspects(part) => drop(part),
            SubprogramPart::Aspect(part) => drop(part),
        }
    }
}

impl SubprogramPart {
    pub fn params(self, alloc: Global) -> Chain<Param>
        ensures { result ≡ params_from self }
    {
        match self {
            SubprogramPart::Params(params) => params,
            other => {
                drop(other);
                Chain::new(alloc)
            }
        }
    }

    pub fn param(self, alloc: Global) -> Param
        ensures { result ≡ param_from self }
    {
        match self {
            SubprogramPart::Param(param) => param,
            other => {
                drop(other);
                Param {
                    span: nowhere(),
                    names: Items::new(alloc),
                    mode: Mode::Unstated,
                    subtype: missing_sub_ind(alloc),
                }
            }
        }
    }

    pub fn mode(self) -> Mode
        ensures { result ≡ mode_from self }
    {
        match self {
            SubprogramPart::Mode(mode) => mode,
            other => {
                drop(other);
                Mode::Unstated
            }
        }
    }

    pub fn aspects(self, alloc: Global) -> Chain<Aspect>
        ensures { result ≡ aspects_from self }
    {
        match self {
            SubprogramPart::Aspects(aspects) => aspects,
            other => {
                drop(other);
                Chain::new(alloc)
            }
        }
    }

    pub fn aspect(self) -> Aspect
        ensures { result ≡ aspect_from self }
    {
        match self {
            SubprogramPart::Aspect(aspect) => aspect,
            other => {
                drop(other);
                Aspect {
                    span: nowhere(),
                    name: nowhere(),
                    value: None,
                }
            }
        }
    }
}
