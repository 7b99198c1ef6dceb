//! Library units (Ada RM 10.1.1), as they are written.

use crate::declarations::{Aspect, Decl, Sub};
use crate::statements::Pragma;
use ada_text::Span;
use sqlite_items::{Boxed, Items};

/// What may stand before a unit. A clause has one name or more.
pub enum ContextItem {
    Pragma(Pragma),
    With(Items<Span>),
    Use(Items<Span>),
}

impl Drop for ContextItem {
    fn drop(self) {
        match self {
            ContextItem::Pragma(pragma) => drop(pragma),
            ContextItem::With(names) => drop(names),
            ContextItem::Use(names) => drop(names),
        }
    }
}

/// A package's declaration (Ada RM 7.1), with the declarations after `private` where that word stands, and the name
/// after its `end`.
pub struct Package {
    pub name: Span,
    pub aspects: Items<Aspect>,
    pub declarations: Items<Decl>,
    pub private: Option<Items<Decl>>,
    pub end_name: Option<Span>,
}

impl Drop for Package {
    fn drop(self) {
        let Package {
            name: _,
            aspects,
            declarations,
            private,
            end_name: _,
        } = self;
        drop(aspects);
        drop(declarations);
        drop(private);
    }
}

/// A package's body (Ada RM 7.2), with the name after its `end`.
pub struct PackageBody {
    pub name: Span,
    pub aspects: Items<Aspect>,
    pub declarations: Items<Decl>,
    pub end_name: Option<Span>,
}

impl Drop for PackageBody {
    fn drop(self) {
        let PackageBody {
            name: _,
            aspects,
            declarations,
            end_name: _,
        } = self;
        drop(aspects);
        drop(declarations);
    }
}

/// A library unit.
#[derive(Drop)]
pub struct Unit {
    pub span: Span,
    pub form: Boxed<UnitForm>,
}

/// The forms of a library unit.
pub enum UnitForm {
    Package(Package),
    PackageBody(PackageBody),
    Sub(Sub<Decl>),
}

impl Drop for UnitForm {
    fn drop(self) {
        match self {
            UnitForm::Package(package) => drop(package),
            UnitForm::PackageBody(package) => drop(package),
            UnitForm::Sub(sub) => drop(sub),
        }
    }
}

/// A file: what stands before its unit, and the unit.
pub struct SourceUnit {
    pub span: Span,
    pub context: Items<ContextItem>,
    pub unit: Unit,
}

impl Drop for SourceUnit {
    fn drop(self) {
        let SourceUnit {
            span: _,
            context,
            unit,
        } = self;
        drop(context);
        drop(unit);
    }
}
