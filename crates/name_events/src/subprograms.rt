//! The events of aspects and subprograms (Ada RM 6, 13.1.1), and of the declarations of a package.

ghost use Rattle.std.specs.Prelude.{◌≡◌, OnOk, map, option_map, true};
ghost use Rattle.name_numbers.specs.Numbers.{number_at, word_of};
ghost use Rattle.name_events.specs.Declarations.{aspect_as_onto, aspects_onto, body_onto, decl_onto, decls_onto, declared_sub_onto, end_name_onto, heading_onto, is_some_body, is_some_bounds, mark_onto, mode_of, param_onto, params_onto, result_onto, selectors_onto, some_item_onto, sub_in_onto, sub_onto};
ghost use Rattle.syntax_view.specs.View.{aspect_of, body_of, bounds_of, decl, decls_of, expr, heading_of, item_of, name_of, param_of, sub_of, suffixes_of};

use crate::Starved;
use crate::asked::{are_selectors, given_value, switches_on};
use crate::declarations::{is_pragma, push_plain, push_plain_list};
use crate::statements::push_stmts;
use crate::words::{Region, is_mode, within_aspect};
use ada_syntax::{
    Aspect, Body, Bounds, Decl, DeclForm, Expr, Item, Mode, Name, Param, Sub, Suffix,
};
use ada_text::Span;
use name_library::{Event, Kind, Manner, Scope};
use name_numbers::{NameTable, Word, word_of};
use name_uses::{Listed, Within, ident, push_item, push_left_out, push_listed};
use sqlite_items::Items;

/// Tells of the identifiers after points that stand first in what follows a name's first identifier.
fn push_selectors(
    found: &mut Items<Event>,
    names: &NameTable,
    suffixes: &Items<Suffix<Expr>>,
) -> Result<(), Starved>
    ensures { OnOk result (found.new ≡ selectors_onto (number_at names.now) found.old (suffixes_of expr suffixes.now)) }
{
    for suffix in suffixes.as_slice() {
        match suffix {
            Suffix::Selected(name) => found.push(Event::Selects(ident(names, *name)))?,
            Suffix::Ticked(_, _) | Suffix::Applied(_) => return Ok(()),
        }
    }
    Ok(())
}

/// Tells of a subtype's name in a profile, where neither a constraint nor parentheses nor a tick may stand.
fn push_mark(
    found: &mut Items<Event>,
    names: &NameTable,
    constrained: bool,
    name: &Name<Expr>,
) -> Result<(), Starved>
    ensures { OnOk result (found.new ≡ mark_onto (number_at names.now) constrained found.old (name_of expr name.now)) }
{
    let longer = !are_selectors(&name.suffixes);
    push_left_out(found, constrained || longer, name.span.from)?;
    found.push(Event::Name(ident(names, name.first), Manner::Plain))?;
    push_selectors(found, names, &name.suffixes)
}

fn is_some_bounds(bounds: &Option<Bounds>) -> bool
    ensures { result ≡ is_some_bounds (option_map bounds_of bounds.now) }
{
    match bounds {
        None => false,
        Some(_) => true,
    }
}

/// The mode of parameters, which is `in` where none is written (Ada RM 6.1).
fn mode_of(mode: Mode) -> name_library::Mode
    ensures { result ≡ mode_of mode }
{
    match mode {
        Mode::Unstated | Mode::In => name_library::Mode::In,
        Mode::Out => name_library::Mode::Out,
        Mode::InOut => name_library::Mode::InOut,
    }
}

fn push_param(found: &mut Items<Event>, names: &NameTable, param: &Param) -> Result<(), Starved>
    ensures { OnOk result (found.new ≡ param_onto (number_at names.now) found.old (param_of param.now)) }
{
    push_listed(
        found,
        names,
        Listed::Declared(Kind::Parameter),
        &param.names,
    )?;
    let constrained = is_some_bounds(&param.subtype.bounds);
    push_mark(found, names, constrained, &param.subtype.name)?;
    found.push(Event::ParametersEnd(mode_of(param.mode)))
}

fn push_params(
    found: &mut Items<Event>,
    names: &NameTable,
    params: &Items<Param>,
) -> Result<(), Starved>
    ensures { OnOk result (found.new ≡ params_onto (number_at names.now) found.old (map param_of params.now)) }
{
    for param in params.as_slice() {
        push_param(found, names, param)?;
    }
    Ok(())
}

fn push_result(
    found: &mut Items<Event>,
    names: &NameTable,
    name: &Option<Name<Expr>>,
) -> Result<(), Starved>
    ensures { OnOk result (found.new ≡ result_onto (number_at names.now) found.old (option_map (name_of expr) name.now)) }
{
    match name {
        None => Ok(()),
        Some(name) => {
            push_mark(found, names, false, name)?;
            found.push(Event::ResultEnds)
        }
    }
}

fn push_some_item(
    found: &mut Items<Event>,
    names: &NameTable,
    within: Within,
    item: &Option<Item<Expr>>,
) -> Result<(), Starved>
    ensures { OnOk result (found.new ≡ some_item_onto (number_at names.now) within found.old (option_map (item_of expr) item.now)) }
{
    match item {
        None => Ok(()),
        Some(item) => push_item(found, names, within, item),
    }
}

/// Tells of an aspect by the word that its name is.
fn push_aspect(
    found: &mut Items<Event>,
    names: &NameTable,
    word: Option<Word>,
    aspect: &Aspect,
) -> Result<(), Starved>
    ensures { OnOk result (found.new ≡ aspect_as_onto (number_at names.now) word found.old (aspect_of aspect.now)) }
{
    match within_aspect(word) {
        Some(within) => push_some_item(found, names, within, &aspect.value),
        None => {
            let taken = is_mode(word) && switches_on(names, given_value(&aspect.value));
            push_left_out(found, !taken, aspect.span.from)
        }
    }
}

pub(crate) fn push_aspects(
    found: &mut Items<Event>,
    names: &NameTable,
    aspects: &Items<Aspect>,
) -> Result<(), Starved>
    ensures { OnOk result (found.new ≡ aspects_onto (number_at names.now) found.old (map aspect_of aspects.now)) }
{
    for aspect in aspects.as_slice() {
        let word = word_of(names.number_at(aspect.name.from));
        push_aspect(found, names, word, aspect)?;
    }
    Ok(())
}

pub(crate) fn push_end_name(
    found: &mut Items<Event>,
    names: &NameTable,
    name: Option<Span>,
) -> Result<(), Starved>
    ensures { OnOk result (found.new ≡ end_name_onto (number_at names.now) found.old name) }
{
    match name {
        None => Ok(()),
        Some(name) => found.push(Event::EndName(ident(names, name))),
    }
}

/// Tells of a subprogram before its body, with true where it is one with a body.
fn push_heading(
    found: &mut Items<Event>,
    names: &NameTable,
    has_body: bool,
    sub: &Sub<Decl>,
) -> Result<(), Starved>
    ensures { OnOk result (found.new ≡ heading_onto (number_at names.now) has_body found.old (heading_of sub.now)) }
{
    found.push(Event::Opens(Scope::Subprogram(ident(names, sub.name), has_body)))?;
    push_params(found, names, &sub.params)?;
    push_result(found, names, &sub.result)?;
    found.push(Event::ProfileEnds)?;
    push_aspects(found, names, &sub.aspects)
}

fn push_body(
    found: &mut Items<Event>,
    names: &NameTable,
    body: &Option<Body<Decl>>,
) -> Result<(), Starved>
    ensures { OnOk result (found.new ≡ body_onto (number_at names.now) found.old (body_of decl body.now)) }
{
    match body {
        None => Ok(()),
        Some(body) => {
            push_plain_list(found, names, &body.declarations)?;
            push_stmts(found, names, &body.statements)?;
            push_end_name(found, names, body.end_name)
        }
    }
}

fn is_some_body(body: &Option<Body<Decl>>) -> bool
    ensures { result ≡ is_some_body (body_of decl body.now) }
{
    match body {
        None => false,
        Some(_) => true,
    }
}

/// Tells of a subprogram with its body.
pub(crate) fn push_sub(
    found: &mut Items<Event>,
    names: &NameTable,
    sub: &Sub<Decl>,
) -> Result<(), Starved>
    ensures { OnOk result (found.new ≡ sub_onto (number_at names.now) found.old (sub_of decl sub.now)) }
{
    push_heading(found, names, is_some_body(&sub.body), sub)?;
    push_body(found, names, &sub.body)?;
    found.push(Event::Closes)
}

/// Tells of a subprogram in a package's declaration, where a body is left out.
fn push_declared_sub(
    found: &mut Items<Event>,
    names: &NameTable,
    at: u32,
    sub: &Sub<Decl>,
) -> Result<(), Starved>
    ensures { OnOk result (found.new ≡ declared_sub_onto (number_at names.now) at found.old (sub_of decl sub.now)) }
{
    push_left_out(found, is_some_body(&sub.body), at)?;
    push_heading(found, names, false, sub)?;
    found.push(Event::Closes)
}

fn push_sub_in(
    found: &mut Items<Event>,
    names: &NameTable,
    region: Region,
    at: u32,
    sub: &Sub<Decl>,
) -> Result<(), Starved>
    ensures { OnOk result (found.new ≡ sub_in_onto (number_at names.now) region at found.old (sub_of decl sub.now)) }
{
    match region {
        Region::Visible(_) | Region::Private => push_declared_sub(found, names, at, sub),
        Region::Body => push_sub(found, names, sub),
        Region::Subprogram => found.push(Event::LeftOut(at)),
    }
}

#[tactic(auto, using(syntax_view::proofs::Forms::decl_has))]
fn push_decl(
    found: &mut Items<Event>,
    names: &NameTable,
    region: Region,
    first: bool,
    declaration: &Decl,
) -> Result<(), Starved>
    ensures { OnOk result (found.new ≡ decl_onto (number_at names.now) region first found.old (decl declaration.now)) }
{
    match declaration.form.get() {
        DeclForm::Sub(sub) => push_sub_in(found, names, region, declaration.span.from, sub),
        DeclForm::Type(_, _)
        | DeclForm::Subtype(_, _)
        | DeclForm::Object(_, _)
        | DeclForm::Pragma(_)
        | DeclForm::Use(_) => push_plain(found, names, region, first, declaration),
    }
}

/// Tells of the declarations of a package's region.
pub(crate) fn push_decls(
    found: &mut Items<Event>,
    names: &NameTable,
    region: Region,
    declarations: &Items<Decl>,
) -> Result<(), Starved>
    ensures { OnOk result (found.new ≡ decls_onto (number_at names.now) region true found.old (decls_of decl declarations.now)) }
{
    let mut first = true;
    for declaration in declarations.as_slice() {
        push_decl(found, names, region, first, declaration)?;
        first = first && is_pragma(declaration);
    }
    Ok(())
}
