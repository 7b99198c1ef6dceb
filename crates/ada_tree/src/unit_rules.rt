//! What becomes of compilation units and their context (Ada RM 10.1.1, 10.1.2), and packages (Ada RM 7.1, 7.2).

ghost use Rattle.std.specs.Prelude.{◌≡◌, OnOk};
ghost use Rattle.ada_tree.specs.Units.{clause_rule, context_rule, names_rule, package_rule, unit_rule};

use crate::rules::{ClauseRule, ContextRule, NamesRule, PackageRule, UnitRule};
use ada_syntax::{ContextItem, Package, PackageBody, SourceUnit, Unit, UnitForm};
use std::alloc::Global;
use tree_parts::{Chain, Edged, Parts, Starved, UnitPart, joined};

/// Takes the parts of a production from the front, and puts there what the rule makes of them.
pub fn apply_context(alloc: Global, rule: ContextRule, parts: &mut Parts) -> Result<(), Starved>
    ensures { OnOk result (parts.new ≡ context_rule rule parts.old) }
{
    match rule {
        // File = Start Unit
        ContextRule::File => {
            let context = parts.unit().context(alloc);
            let unit = parts.unit().unit(alloc)?;
            parts.put_unit(
                alloc,
                UnitPart::SourceUnit(SourceUnit {
                    span: joined(context.edge.unwrap_or(unit.span), unit.span),
                    context: context.value.into_items(),
                    unit,
                }),
            )
        }
        // Start = Pragma Start
        ContextRule::ContextPragma => {
            let pragma = parts.declaration().pragma(alloc);
            let context = parts.unit().context(alloc);
            let start = pragma.span;
            let value = context.value.with_first(ContextItem::Pragma(pragma))?;
            parts.put_unit(
                alloc,
                UnitPart::Context(Edged {
                    value,
                    edge: Some(start),
                }),
            )
        }
        // Start =
        ContextRule::NoContext => {
            parts.put_unit(
                alloc,
                UnitPart::Context(Edged {
                    value: Chain::new(alloc),
                    edge: None,
                }),
            )
        }
    }
}

/// Takes the parts of a production from the front, and puts there what the rule makes of them.
pub fn apply_clause(alloc: Global, rule: ClauseRule, parts: &mut Parts) -> Result<(), Starved>
    ensures { OnOk result (parts.new ≡ clause_rule rule parts.old) }
{
    match rule {
        // Start = with Id Ids ; Start
        ClauseRule::ContextWith => {
            let start = parts.place();
            let name = parts.place();
            let names = parts.unit().names(alloc);
            parts.skip();
            let context = parts.unit().context(alloc);
            let names = names.with_first(name)?;
            let value = context
                .value
                .with_first(ContextItem::With(names.into_items()))?;
            parts.put_unit(
                alloc,
                UnitPart::Context(Edged {
                    value,
                    edge: Some(start),
                }),
            )
        }
        // Start = use Id Ids ; Start
        ClauseRule::ContextUse => {
            let start = parts.place();
            let name = parts.place();
            let names = parts.unit().names(alloc);
            parts.skip();
            let context = parts.unit().context(alloc);
            let names = names.with_first(name)?;
            let value = context
                .value
                .with_first(ContextItem::Use(names.into_items()))?;
            parts.put_unit(
                alloc,
                UnitPart::Context(Edged {
                    value,
                    edge: Some(start),
                }),
            )
        }
    }
}

/// Takes the parts of a production from the front, and puts there what the rule makes of them.
pub fn apply_names(alloc: Global, rule: NamesRule, parts: &mut Parts) -> Result<(), Starved>
    ensures { OnOk result (parts.new ≡ names_rule rule parts.old) }
{
    match rule {
        // Ids = , Id Ids
        NamesRule::Names => {
            parts.skip();
            let name = parts.place();
            let names = parts.unit().names(alloc).with_first(name)?;
            parts.put_unit(alloc, UnitPart::Names(names))
        }
        // Ids =
        NamesRule::NoNames => { parts.put_unit(alloc, UnitPart::Names(Chain::new(alloc))) }
        // EndId = Id
        NamesRule::SomeEndName => {
            let name = parts.place();
            parts.put_unit(alloc, UnitPart::EndName(Some(name)))
        }
        // EndId =
        NamesRule::NoEndName => { parts.put_unit(alloc, UnitPart::EndName(None)) }
    }
}

/// Takes the parts of a production from the front, and puts there what the rule makes of them.
pub fn apply_unit(alloc: Global, rule: UnitRule, parts: &mut Parts) -> Result<(), Starved>
    ensures { OnOk result (parts.new ≡ unit_rule rule parts.old) }
{
    match rule {
        // Unit = package Pack
        UnitRule::UnitPackage => {
            let start = parts.place();
            let Unit { span, form } = parts.unit().unit(alloc)?;
            parts.put_unit(
                alloc,
                UnitPart::Unit(Unit {
                    span: joined(start, span),
                    form,
                }),
            )
        }
        // Unit = Sub
        UnitRule::UnitSub => {
            let sub = parts.declaration().sub(alloc);
            parts.put_formed_unit(alloc, sub.span, UnitForm::Sub(sub))
        }
        // Priv = private Decls
        UnitRule::SomePrivate => {
            parts.skip();
            let decls = parts.declaration().decls(alloc);
            parts.put_unit(alloc, UnitPart::Private(Some(decls.into_items())))
        }
        // Priv =
        UnitRule::NoPrivate => { parts.put_unit(alloc, UnitPart::Private(None)) }
    }
}

/// Takes the parts of a production from the front, and puts there what the rule makes of them.
pub fn apply_package(alloc: Global, rule: PackageRule, parts: &mut Parts) -> Result<(), Starved>
    ensures { OnOk result (parts.new ≡ package_rule rule parts.old) }
{
    match rule {
        // Pack = body Id Asp is Decls end EndId ;
        PackageRule::PackageBody => {
            let start = parts.place();
            let name = parts.place();
            let aspects = parts.subprogram().aspects(alloc);
            parts.skip();
            let decls = parts.declaration().decls(alloc);
            parts.skip();
            let end_name = parts.unit().end_name();
            let end = parts.place();
            parts.put_formed_unit(
                alloc,
                joined(start, end),
                UnitForm::PackageBody(PackageBody {
                    name,
                    aspects: aspects.into_items(),
                    declarations: decls.into_items(),
                    end_name,
                }),
            )
        }
        // Pack = Id Asp is Decls Priv end EndId ;
        PackageRule::PackageSpec => {
            let name = parts.place();
            let aspects = parts.subprogram().aspects(alloc);
            parts.skip();
            let decls = parts.declaration().decls(alloc);
            let private = parts.unit().private();
            parts.skip();
            let end_name = parts.unit().end_name();
            let end = parts.place();
            parts.put_formed_unit(
                alloc,
                joined(name, end),
                UnitForm::Package(Package {
                    name,
                    aspects: aspects.into_items(),
                    declarations: decls.into_items(),
                    private,
                    end_name,
                }),
            )
        }
    }
}
