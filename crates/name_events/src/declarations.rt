//! The events of declarations, of all but subprograms (Ada RM 3, 8.4, 13.1.1).

ghost use Rattle.std.specs.Prelude.{◌≡◌, OnOk, map, option_map, true};
ghost use Rattle.name_numbers.specs.Numbers.{number_at};
ghost use Rattle.name_events.specs.Declarations.{bounds_onto, components_onto, hidden_onto, index_form_onto, index_onto, is_pragma, object_kind, object_onto, plain_decl_onto, plain_decls_onto, pragma_in_onto, some_bounds_onto, some_sub_ind_onto, sub_ind_onto, subtype_onto, type_form_onto, type_onto, use_onto};
ghost use Rattle.syntax_view.specs.View.{bounds_of, component_of, decl, decls_of, index_form_of, index_of, object_of, pragma_of, sub_ind, type_form_of};

use crate::Starved;
use crate::asked::{given_args, is_heading};
use crate::statements::{push_check, push_some};
use crate::words::{Region, is_private, is_subprogram, pragma_kind};
use ada_syntax::{
    Bounds, Component, Decl, DeclForm, Index, IndexForm, Object, Pragma, SubInd, TypeForm,
};
use ada_text::Span;
use name_library::{Event, Kind, Scope};
use name_numbers::{NameTable, word_of};
use name_uses::{Listed, Within, ident, push_expr, push_listed, push_name};
use sqlite_items::Items;

fn push_bounds(found: &mut Items<Event>, names: &NameTable, bounds: &Bounds) -> Result<(), Starved>
    ensures { OnOk result (found.new ≡ bounds_onto (number_at names.now) found.old (bounds_of bounds.now)) }
{
    push_expr(found, names, Within::Text, &bounds.low)?;
    push_expr(found, names, Within::Text, &bounds.high)
}

fn push_some_bounds(
    found: &mut Items<Event>,
    names: &NameTable,
    bounds: &Option<Bounds>,
) -> Result<(), Starved>
    ensures { OnOk result (found.new ≡ some_bounds_onto (number_at names.now) found.old (option_map bounds_of bounds.now)) }
{
    match bounds {
        None => Ok(()),
        Some(bounds) => push_bounds(found, names, bounds),
    }
}

fn push_sub_ind(
    found: &mut Items<Event>,
    names: &NameTable,
    subtype: &SubInd,
) -> Result<(), Starved>
    ensures { OnOk result (found.new ≡ sub_ind_onto (number_at names.now) found.old (sub_ind subtype.now)) }
{
    push_name(found, names, Within::Text, true, &subtype.name)?;
    push_some_bounds(found, names, &subtype.bounds)
}

fn push_some_sub_ind(
    found: &mut Items<Event>,
    names: &NameTable,
    subtype: &Option<SubInd>,
) -> Result<(), Starved>
    ensures { OnOk result (found.new ≡ some_sub_ind_onto (number_at names.now) found.old (option_map sub_ind subtype.now)) }
{
    match subtype {
        None => Ok(()),
        Some(subtype) => push_sub_ind(found, names, subtype),
    }
}

fn push_index_form(
    found: &mut Items<Event>,
    names: &NameTable,
    form: &IndexForm,
) -> Result<(), Starved>
    ensures { OnOk result (found.new ≡ index_form_onto (number_at names.now) found.old (index_form_of form.now)) }
{
    match form {
        IndexForm::Alone | IndexForm::Unconstrained => Ok(()),
        IndexForm::UpTo(high) => push_expr(found, names, Within::Text, high),
        IndexForm::Within(bounds) => push_bounds(found, names, bounds),
    }
}

fn push_index(found: &mut Items<Event>, names: &NameTable, index: &Index) -> Result<(), Starved>
    ensures { OnOk result (found.new ≡ index_onto (number_at names.now) found.old (index_of index.now)) }
{
    push_expr(found, names, Within::Text, &index.first)?;
    push_index_form(found, names, &index.form)
}

fn push_components(
    found: &mut Items<Event>,
    names: &NameTable,
    components: &Items<Component>,
) -> Result<(), Starved>
    ensures { OnOk result (found.new ≡ components_onto (number_at names.now) found.old (map component_of components.now)) }
{
    for component in components.as_slice() {
        push_listed(
            found,
            names,
            Listed::Declared(Kind::Component),
            &component.names,
        )?;
        push_sub_ind(found, names, &component.subtype)?;
    }
    Ok(())
}

fn push_type_form(
    found: &mut Items<Event>,
    names: &NameTable,
    form: &TypeForm,
) -> Result<(), Starved>
    ensures { OnOk result (found.new ≡ type_form_onto (number_at names.now) found.old (type_form_of form.now)) }
{
    match form {
        TypeForm::Range(bounds) => push_bounds(found, names, bounds),
        TypeForm::Modular(modulus) => push_expr(found, names, Within::Text, modulus),
        TypeForm::Enumeration(literals) => {
            push_listed(found, names, Listed::Declared(Kind::Literal), literals)
        }
        TypeForm::Array(index, items) => {
            push_index(found, names, index)?;
            push_sub_ind(found, names, items)
        }
        TypeForm::Record(components) => {
            found.push(Event::Opens(Scope::Record))?;
            push_components(found, names, components)?;
            found.push(Event::Closes)
        }
        TypeForm::Derived(parent) => push_sub_ind(found, names, parent),
    }
}

/// Tells of a declaration that is left out, with what it declares. Its inside isn't looked at.
fn push_hidden(
    found: &mut Items<Event>,
    names: &NameTable,
    at: u32,
    kind: Kind,
    name: Span,
) -> Result<(), Starved>
    ensures { OnOk result (found.new ≡ hidden_onto (number_at names.now) at found.old kind name) }
{
    found.push(Event::LeftOut(at))?;
    found.push(Event::Declares(kind, ident(names, name)))?;
    found.push(Event::DeclarationEnds)
}

/// Tells of a type's declaration, which begins at a byte and is left out in a private part.
fn push_type(
    found: &mut Items<Event>,
    names: &NameTable,
    region: Region,
    at: u32,
    name: Span,
    form: &TypeForm,
) -> Result<(), Starved>
    ensures { OnOk result (found.new ≡ type_onto (number_at names.now) region at found.old name (type_form_of form.now)) }
{
    if is_private(region) {
        return push_hidden(found, names, at, Kind::Type, name);
    }
    found.push(Event::Declares(Kind::Type, ident(names, name)))?;
    push_type_form(found, names, form)?;
    found.push(Event::DeclarationEnds)
}

/// Tells of a subtype's declaration, which begins at a byte and is left out in a private part.
fn push_subtype(
    found: &mut Items<Event>,
    names: &NameTable,
    region: Region,
    at: u32,
    name: Span,
    subtype: &SubInd,
) -> Result<(), Starved>
    ensures { OnOk result (found.new ≡ subtype_onto (number_at names.now) region at found.old name (sub_ind subtype.now)) }
{
    if is_private(region) {
        return push_hidden(found, names, at, Kind::Subtype, name);
    }
    found.push(Event::Declares(Kind::Subtype, ident(names, name)))?;
    push_sub_ind(found, names, subtype)?;
    found.push(Event::DeclarationEnds)
}

/// A named number has no subtype (Ada RM 3.3).
fn object_kind(subtype: &Option<SubInd>) -> Kind
    ensures { result ≡ object_kind (option_map sub_ind subtype.now) }
{
    match subtype {
        None => Kind::NamedNumber,
        Some(_) => Kind::Object,
    }
}

fn push_object(
    found: &mut Items<Event>,
    names: &NameTable,
    objects: &Items<Span>,
    object: &Object,
) -> Result<(), Starved>
    ensures { OnOk result (found.new ≡ object_onto (number_at names.now) found.old objects.now (object_of object.now)) }
{
    let kind = object_kind(&object.subtype);
    push_listed(found, names, Listed::Declared(kind), objects)?;
    push_some_sub_ind(found, names, &object.subtype)?;
    push_some(found, names, &object.value)?;
    found.push(Event::DeclarationEnds)
}

/// Tells of a pragma among declarations, or before a unit. With true no declaration stands before it.
pub(crate) fn push_pragma_in(
    found: &mut Items<Event>,
    names: &NameTable,
    region: Region,
    first: bool,
    pragma: &Pragma,
) -> Result<(), Starved>
    ensures { OnOk result (found.new ≡ pragma_in_onto (number_at names.now) region first found.old (pragma_of pragma.now)) }
{
    let kind = pragma_kind(word_of(names.number_at(pragma.name.from)));
    if first && is_heading(names, region, kind, given_args(&pragma.args)) {
        return Ok(());
    }
    if is_subprogram(region) {
        push_check(found, names, kind, pragma)
    } else {
        found.push(Event::LeftOut(pragma.span.from))
    }
}

fn push_use(
    found: &mut Items<Event>,
    names: &NameTable,
    region: Region,
    at: u32,
    packages: &Items<Span>,
) -> Result<(), Starved>
    ensures { OnOk result (found.new ≡ use_onto (number_at names.now) region at found.old packages.now) }
{
    if is_private(region) {
        found.push(Event::LeftOut(at))
    } else {
        push_listed(found, names, Listed::Use, packages)
    }
}

/// Tells of a declaration. A subprogram's is left out, as it is inside a subprogram.
#[tactic(auto, using(syntax_view::proofs::Forms::decl_has))]
pub(crate) fn push_plain(
    found: &mut Items<Event>,
    names: &NameTable,
    region: Region,
    first: bool,
    declaration: &Decl,
) -> Result<(), Starved>
    ensures { OnOk result (found.new ≡ plain_decl_onto (number_at names.now) region first found.old (decl declaration.now)) }
{
    let at = declaration.span.from;
    match declaration.form.get() {
        DeclForm::Type(name, definition) => {
            push_type(found, names, region, at, *name, definition.form.get())
        }
        DeclForm::Subtype(name, subtype) => push_subtype(found, names, region, at, *name, subtype),
        DeclForm::Object(objects, object) => push_object(found, names, objects, object),
        DeclForm::Sub(_) => found.push(Event::LeftOut(at)),
        DeclForm::Pragma(pragma) => push_pragma_in(found, names, region, first, pragma),
        DeclForm::Use(packages) => push_use(found, names, region, at, packages),
    }
}

#[tactic(auto, using(syntax_view::proofs::Forms::decl_has))]
pub(crate) fn is_pragma(declaration: &Decl) -> bool
    ensures { result ≡ is_pragma (decl declaration.now) }
{
    match declaration.form.get() {
        DeclForm::Pragma(_) => true,
        DeclForm::Type(_, _)
        | DeclForm::Subtype(_, _)
        | DeclForm::Object(_, _)
        | DeclForm::Sub(_)
        | DeclForm::Use(_) => false,
    }
}

/// Tells of the declarations of a subprogram's body.
pub(crate) fn push_plain_list(
    found: &mut Items<Event>,
    names: &NameTable,
    declarations: &Items<Decl>,
) -> Result<(), Starved>
    ensures { OnOk result (found.new ≡ plain_decls_onto (number_at names.now) true found.old (decls_of decl declarations.now)) }
{
    let mut first = true;
    for declaration in declarations.as_slice() {
        push_plain(found, names, Region::Subprogram, first, declaration)?;
        first = first && is_pragma(declaration);
    }
    Ok(())
}
