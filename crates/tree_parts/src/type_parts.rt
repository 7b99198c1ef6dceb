//! Parts of types, each taken as what it is.

ghost use Rattle.std.specs.Prelude.{◌≡◌, IfOk};
ghost use Rattle.tree_parts.specs.Parts.{bounds_from, component_from, components_from, index_form_from, index_from, sub_ind_from, type_def_from};

use crate::Starved;
use crate::chain::Chain;
use crate::missing::{missing_expr, missing_sub_ind, missing_type_def, nowhere};
use ada_syntax::{Bounds, Component, Index, IndexForm, SubInd, TypeDef};
use sqlite_items::Items;
use std::alloc::Global;

/// What a phrase of type definitions became.
pub enum TypePart {
    TypeDef(TypeDef),
    Index(Index),
    IndexForm(IndexForm),
    Component(Component),
    Components(Chain<Component>),
    SubInd(SubInd),
    Bounds(Option<Bounds>),
}

impl Drop for TypePart {
    fn drop(self) {
        match self {
            TypePart::TypeDef(part) => drop(part),
            TypePart::Index(part) => drop(part),
            TypePart::IndexForm(part) => drop(part),
            TypePart::Component(part) => drop(part),
            TypePart::Components(part) => drop(part),
            TypePart::SubInd(part) => drop(part),
            TypePart::Bounds(part) => drop(part),
        }
    }
}

impl TypePart {
    pub fn type_def(self, alloc: Global) -> Result<TypeDef, Starved>
        ensures { IfOk result (λ found. found ≡ type_def_from self) }
    {
        match self {
            TypePart::TypeDef(type_def) => Ok(type_def),
            other => {
                drop(other);
                missing_type_def(alloc)
            }
        }
    }

    pub fn index(self, alloc: Global) -> Result<Index, Starved>
        ensures { IfOk result (λ found. found ≡ index_from self) }
    {
        match self {
            TypePart::Index(index) => Ok(index),
            other => {
                drop(other);
                Ok(Index {
                    first: missing_expr(alloc)?,
                    form: IndexForm::Alone,
                })
            }
        }
    }

    pub fn index_form(self) -> IndexForm
        ensures { result ≡ index_form_from self }
    {
        match self {
            TypePart::IndexForm(index_form) => index_form,
            other => {
                drop(other);
                IndexForm::Alone
            }
        }
    }

    pub fn component(self, alloc: Global) -> Component
        ensures { result ≡ component_from self }
    {
        match self {
            TypePart::Component(component) => component,
            other => {
                drop(other);
                Component {
                    span: nowhere(),
                    names: Items::new(alloc),
                    subtype: missing_sub_ind(alloc),
                }
            }
        }
    }

    pub fn components(self, alloc: Global) -> Chain<Component>
        ensures { result ≡ components_from self }
    {
        match self {
            TypePart::Components(components) => components,
            other => {
                drop(other);
                Chain::new(alloc)
            }
        }
    }

    pub fn sub_ind(self, alloc: Global) -> SubInd
        ensures { result ≡ sub_ind_from self }
    {
        match self {
            TypePart::SubInd(sub_ind) => sub_ind,
            other => {
                drop(other);
                missing_sub_ind(alloc)
            }
        }
    }

    pub fn bounds(self) -> Option<Bounds>
        ensures { result ≡ bounds_from self }
    {
        match self {
            TypePart::Bounds(bounds) => bounds,
            other => {
                drop(other);
                None
            }
        }
    }
}
