//! Parts of declarations, each taken as what it is.

ghost use Rattle.std.specs.Prelude.{◌≡◌, IfOk};
ghost use Rattle.tree_parts.specs.Parts.{body_from, decl_from, decls_from, object_from, pragma_from, sub_from};

use crate::Starved;
use crate::chain::Chain;
use crate::missing::{missing_decl, missing_sub, nowhere};
use crate::part::Ended;
use ada_syntax::{Body, Decl, Object, Pragma, Sub};
use sqlite_items::Items;
use std::alloc::Global;

/// What a phrase of declarations became.
pub enum DeclarationPart {
    Decls(Chain<Decl>),
    Decl(Decl),
    Object(Object),
    Sub(Sub<Decl>),
    Body(Ended<Option<Body<Decl>>>),
    Pragma(Pragma),
}

impl Drop for DeclarationPart {
    fn drop(self) {
        match self {
            DeclarationPart::Decls(part) => drop(part),
            DeclarationPart::Decl(part) => drop(part),
            DeclarationPart::Object(part) => drop(part),
            DeclarationPart::Sub(part) => drop(part),
            DeclarationPart::Body(part) => drop(part),
            DeclarationPart::Pragma(part) => drop(part),
        }
    }
}

impl DeclarationPart {
    pub fn decls(self, alloc: Global) -> Chain<Decl>
        ensures { result ≡ decls_from self }
    {
        match self {
            DeclarationPart::Decls(decls) => decls,
            other => {
                drop(other);
                Chain::new(alloc)
            }
        }
    }

    pub fn decl(self, alloc: Global) -> Result<Decl, Starved>
        ensures { IfOk result (λ found. found ≡ decl_from self) }
    {
        match self {
            DeclarationPart::Decl(decl) => Ok(decl),
            other => {
                drop(other);
                missing_decl(alloc)
            }
        }
    }

    pub fn object(self) -> Object
        ensures { result ≡ object_from self }
    {
        match self {
            DeclarationPart::Object(object) => object,
            other => {
                drop(other);
                Object {
                    constant: false,
                    subtype: None,
                    value: None,
                }
            }
        }
    }

    pub fn sub(self, alloc: Global) -> Sub<Decl>
        ensures { result ≡ sub_from self }
    {
        match self {
            DeclarationPart::Sub(sub) => sub,
            other => {
                drop(other);
                missing_sub(alloc)
            }
        }
    }

    pub fn body(self) -> Ended<Option<Body<Decl>>>
        ensures { result ≡ body_from self }
    {
        match self {
            DeclarationPart::Body(body) => body,
            other => {
                drop(other);
                Ended {
                    value: None,
                    end: nowhere(),
                }
            }
        }
    }

    pub fn pragma(self, alloc: Global) -> Pragma
        ensures { result ≡ pragma_from self }
    {
        match self {
            DeclarationPart::Pragma(pragma) => pragma,
            other => {
                drop(other);
                Pragma {
                    span: nowhere(),
                    name: nowhere(),
                    args: Items::new(alloc),
                }
            }
        }
    }
}
