//! What becomes of type definitions and subtype indications (Ada RM 3.2.2, 3.4, 3.5.1, 3.5.4, 3.6, 3.8).

ghost use Rattle.std.specs.Prelude.{◌≡◌, OnOk};
ghost use Rattle.ada_tree.specs.Types.{composite_rule, index_rule, subtype_rule, type_form_rule};

use crate::rules::{CompositeRule, IndexRule, SubtypeRule, TypeFormRule};
use ada_syntax::{Bounds, Component, Index, IndexForm, SubInd, TypeForm};
use std::alloc::Global;
use tree_parts::{Chain, Parts, Starved, TypePart, bounds_end, joined};

/// Takes the parts of a production from the front, and puts there what the rule makes of them.
pub fn apply_type_form(alloc: Global, rule: TypeFormRule, parts: &mut Parts) -> Result<(), Starved>
    ensures { OnOk result (parts.new ≡ type_form_rule rule parts.old) }
{
    match rule {
        // TypeDef = range Simple .. Simple
        TypeFormRule::Range => {
            let start = parts.place();
            let low = parts.expression().expr(alloc)?;
            parts.skip();
            let high = parts.expression().expr(alloc)?;
            parts.put_type_def(
                alloc,
                joined(start, high.span),
                TypeForm::Range(Bounds { low, high }),
            )
        }
        // TypeDef = mod Simple
        TypeFormRule::Modular => {
            let start = parts.place();
            let modulus = parts.expression().expr(alloc)?;
            parts.put_type_def(
                alloc,
                joined(start, modulus.span),
                TypeForm::Modular(modulus),
            )
        }
        // TypeDef = ( Id Ids )
        TypeFormRule::Enumeration => {
            let start = parts.place();
            let name = parts.place();
            let names = parts.unit().names(alloc);
            let end = parts.place();
            let names = names.with_first(name)?;
            parts.put_type_def(
                alloc,
                joined(start, end),
                TypeForm::Enumeration(names.into_items()),
            )
        }
        // TypeDef = new SubInd
        TypeFormRule::Derived => {
            let start = parts.place();
            let parent = parts.type_part().sub_ind(alloc);
            parts.put_type_def(alloc, joined(start, parent.span), TypeForm::Derived(parent))
        }
    }
}

/// Takes the parts of a production from the front, and puts there what the rule makes of them.
pub fn apply_composite(alloc: Global, rule: CompositeRule, parts: &mut Parts) -> Result<(), Starved>
    ensures { OnOk result (parts.new ≡ composite_rule rule parts.old) }
{
    match rule {
        // TypeDef = array ( Index ) of SubInd
        CompositeRule::Array => {
            let start = parts.place();
            parts.skip();
            let index = parts.type_part().index(alloc)?;
            parts.skip();
            parts.skip();
            let item = parts.type_part().sub_ind(alloc);
            parts.put_type_def(
                alloc,
                joined(start, item.span),
                TypeForm::Array(index, item),
            )
        }
        // TypeDef = record Comp Comps end record
        CompositeRule::Record => {
            let start = parts.place();
            let first = parts.type_part().component(alloc);
            let components = parts.type_part().components(alloc);
            parts.skip();
            let end = parts.place();
            let components = components.with_first(first)?;
            parts.put_type_def(
                alloc,
                joined(start, end),
                TypeForm::Record(components.into_items()),
            )
        }
    }
}

/// Takes the parts of a production from the front, and puts there what the rule makes of them.
pub fn apply_index(alloc: Global, rule: IndexRule, parts: &mut Parts) -> Result<(), Starved>
    ensures { OnOk result (parts.new ≡ index_rule rule parts.old) }
{
    match rule {
        // Index = Simple IdxTail
        IndexRule::Index => {
            let first = parts.expression().expr(alloc)?;
            let form = parts.type_part().index_form();
            parts.put_type(alloc, TypePart::Index(Index { first, form }))
        }
        // IdxTail = .. Simple
        IndexRule::IndexUpTo => {
            parts.skip();
            let high = parts.expression().expr(alloc)?;
            parts.put_type(alloc, TypePart::IndexForm(IndexForm::UpTo(high)))
        }
        // IdxTail =
        IndexRule::IndexAlone => { parts.put_type(alloc, TypePart::IndexForm(IndexForm::Alone)) }
        // Box = <>
        IndexRule::IndexUnconstrained => {
            parts.skip();
            parts.put_type(alloc, TypePart::IndexForm(IndexForm::Unconstrained))
        }
        // Box = Simple .. Simple
        IndexRule::IndexWithin => {
            let low = parts.expression().expr(alloc)?;
            parts.skip();
            let high = parts.expression().expr(alloc)?;
            parts.put_type(
                alloc,
                TypePart::IndexForm(IndexForm::Within(Bounds { low, high })),
            )
        }
    }
}

/// Takes the parts of a production from the front, and puts there what the rule makes of them.
pub fn apply_subtype(alloc: Global, rule: SubtypeRule, parts: &mut Parts) -> Result<(), Starved>
    ensures { OnOk result (parts.new ≡ subtype_rule rule parts.old) }
{
    match rule {
        // Comp = Id Ids : SubInd ;
        SubtypeRule::Component => {
            let name = parts.place();
            let names = parts.unit().names(alloc);
            parts.skip();
            let subtype = parts.type_part().sub_ind(alloc);
            let end = parts.place();
            let names = names.with_first(name)?;
            parts.put_type(
                alloc,
                TypePart::Component(Component {
                    span: joined(name, end),
                    names: names.into_items(),
                    subtype,
                }),
            )
        }
        // Comps = Comp Comps
        SubtypeRule::Components => {
            let component = parts.type_part().component(alloc);
            let components = parts.type_part().components(alloc).with_first(component)?;
            parts.put_type(alloc, TypePart::Components(components))
        }
        // Comps =
        SubtypeRule::NoComponents => {
            parts.put_type(alloc, TypePart::Components(Chain::new(alloc)))
        }
        // SubInd = Name SubTail
        SubtypeRule::SubInd => {
            let name = parts.expression().name(alloc);
            let bounds = parts.type_part().bounds();
            parts.put_type(
                alloc,
                TypePart::SubInd(SubInd {
                    span: joined(name.span, bounds_end(&bounds, name.span)),
                    name,
                    bounds,
                }),
            )
        }
        // SubTail = range Simple .. Simple
        SubtypeRule::SomeBounds => {
            parts.skip();
            let low = parts.expression().expr(alloc)?;
            parts.skip();
            let high = parts.expression().expr(alloc)?;
            parts.put_type(alloc, TypePart::Bounds(Some(Bounds { low, high })))
        }
        // SubTail =
        SubtypeRule::NoBounds => { parts.put_type(alloc, TypePart::Bounds(None)) }
    }
}
