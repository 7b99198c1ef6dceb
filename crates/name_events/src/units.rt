//! The events of a file (Ada RM 7.1, 7.2, 10.1).

ghost use Rattle.std.specs.Prelude.{◌≡◌, IfOk, OnOk, map, option_map, true};
ghost use Rattle.name_numbers.specs.Numbers.{number_at};
ghost use Rattle.name_events.specs.Events.{context_item_onto, context_onto, events, is_pragma_item, package_body_onto, package_onto, private_onto, unit_onto};
ghost use Rattle.syntax_view.specs.View.{context_item_of, decl, decls_of, package_body_of, package_of, source_unit, unit_form_of};

use crate::Starved;
use crate::declarations::push_pragma_in;
use crate::subprograms::{push_aspects, push_decls, push_end_name, push_sub};
use crate::words::Region;
use ada_syntax::{ContextItem, Decl, Package, PackageBody, SourceUnit, UnitForm};
use name_library::{Event, Scope};
use name_numbers::NameTable;
use name_uses::{Listed, ident, push_listed};
use sqlite_items::Items;
use std::alloc::Global;

fn is_pragma_item(item: &ContextItem) -> bool
    ensures { result ≡ is_pragma_item (context_item_of item.now) }
{
    match item {
        ContextItem::Pragma(_) => true,
        ContextItem::With(_) | ContextItem::Use(_) => false,
    }
}

fn push_context_item(
    found: &mut Items<Event>,
    names: &NameTable,
    first: bool,
    item: &ContextItem,
) -> Result<(), Starved>
    ensures { OnOk result (found.new ≡ context_item_onto (number_at names.now) first found.old (context_item_of item.now)) }
{
    match item {
        ContextItem::Pragma(pragma) => push_pragma_in(found, names, Region::Body, first, pragma),
        ContextItem::With(units) => push_listed(found, names, Listed::With, units),
        ContextItem::Use(units) => push_listed(found, names, Listed::ContextUse, units),
    }
}

/// Tells of what stands before a unit.
fn push_context(
    found: &mut Items<Event>,
    names: &NameTable,
    items: &Items<ContextItem>,
) -> Result<(), Starved>
    ensures { OnOk result (found.new ≡ context_onto (number_at names.now) true found.old (map context_item_of items.now)) }
{
    let mut first = true;
    for item in items.as_slice() {
        push_context_item(found, names, first, item)?;
        first = first && is_pragma_item(item);
    }
    Ok(())
}

fn push_private(
    found: &mut Items<Event>,
    names: &NameTable,
    declarations: &Option<Items<Decl>>,
) -> Result<(), Starved>
    ensures { OnOk result (found.new ≡ private_onto (number_at names.now) found.old (option_map (decls_of decl) declarations.now)) }
{
    match declarations {
        None => Ok(()),
        Some(declarations) => {
            push_decls(found, names, Region::Private, declarations)?;
            found.push(Event::ListEnds)
        }
    }
}

fn push_package(found: &mut Items<Event>, names: &NameTable, unit: &Package) -> Result<(), Starved>
    ensures { OnOk result (found.new ≡ package_onto (number_at names.now) found.old (package_of unit.now)) }
{
    let name = ident(names, unit.name);
    found.push(Event::Opens(Scope::Package(name)))?;
    push_aspects(found, names, &unit.aspects)?;
    push_decls(found, names, Region::Visible(name.name), &unit.declarations)?;
    found.push(Event::ListEnds)?;
    push_private(found, names, &unit.private)?;
    push_end_name(found, names, unit.end_name)
}

fn push_package_body(
    found: &mut Items<Event>,
    names: &NameTable,
    unit: &PackageBody,
) -> Result<(), Starved>
    ensures { OnOk result (found.new ≡ package_body_onto (number_at names.now) found.old (package_body_of unit.now)) }
{
    found.push(Event::Opens(Scope::PackageBody(ident(names, unit.name))))?;
    push_aspects(found, names, &unit.aspects)?;
    push_decls(found, names, Region::Body, &unit.declarations)?;
    found.push(Event::ListEnds)?;
    push_end_name(found, names, unit.end_name)
}

fn push_unit(found: &mut Items<Event>, names: &NameTable, form: &UnitForm) -> Result<(), Starved>
    ensures { OnOk result (found.new ≡ unit_onto (number_at names.now) found.old (unit_form_of form.now)) }
{
    match form {
        UnitForm::Package(unit) => push_package(found, names, unit),
        UnitForm::PackageBody(unit) => push_package_body(found, names, unit),
        UnitForm::Sub(sub) => push_sub(found, names, sub),
    }
}

/// What a file tells of names, in the order of its text.
///
/// `names` has the identifiers of the file's text. An identifier's place is its first byte in that text, from 0.
///
/// # Errors
///
/// Want of memory.
pub fn events_of(
    alloc: Global,
    names: &NameTable,
    file: &SourceUnit,
) -> Result<Items<Event>, Starved>
    ensures { IfOk result (λ found. found ≡ events (number_at names.now) (source_unit file.now)) }
{
    let mut found = Items::new(alloc);
    push_context(&mut found, names, &file.context)?;
    push_unit(&mut found, names, file.unit.form.get())?;
    Ok(found)
}
