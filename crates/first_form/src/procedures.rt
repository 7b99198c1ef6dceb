//! The form that a tree is.

ghost use Rattle.std.specs.Prelude.{◌≡◌, ◌<◌, ◌-◌, ◌^◌, IfOk, None, Some, length};
ghost use Rattle.first_form.specs.declared.form.FirstForm.{FirstForm};
ghost use Rattle.first_form.specs.Tree.{body_in, each, form_of, form_with, is_ended, is_in, is_integer, one_in, param_in, procedure_in, shape_of, statement_in, unit_in};
ghost use Rattle.first_form.specs.Spelled.{text_at};

use crate::conditions::assertions_in;
use crate::form::{FirstForm, FormFault};
use crate::limits::is_form;
use crate::spelled::{is_word, text_at};
use ada_syntax::{Body, Decl, Mode, Param, SourceUnit, Stmt, Sub, SubInd, UnitForm};
use ada_text::Span;
use ada_values::{NameList, NameText};
use std::alloc::Global;

/// Whether a subtype is Integer, unconstrained.
fn is_integer(text: &[u8], subtype: &SubInd) -> bool
    ensures { result ≡ is_integer text.now subtype.now }
{
    subtype.bounds.is_none()
        && subtype.name.suffixes.as_slice().is_empty()
        && is_word(text, subtype.name.first, b"integer")
}

/// Whether a mode is `in`, as written.
fn is_in(mode: Mode) -> bool
    ensures { result ≡ is_in mode }
{
    matches!(mode, Mode::In)
}

/// The one identifier of a list.
fn one_in(alloc: Global, text: &[u8], names: &[Span]) -> Result<NameText, FormFault>
    ensures ok { IfOk result (λ x. one_in text.now names.now ≡ Some x) }
    ensures not_built { result ≡ Err FormFault.NotBuilt → one_in text.now names.now ≡ None }
{
    match names {
        [name] => {
            let name = NameText::from_bytes(alloc, text_at(text, *name))?;
            Ok(name)
        }
        _ => Err(FormFault::NotBuilt),
    }
}

/// The name of a parameter `P : in Integer`.
fn param_in(alloc: Global, text: &[u8], param: &Param) -> Result<NameText, FormFault>
    ensures ok { IfOk result (λ x. param_in text.now param.now ≡ Some x) }
    ensures not_built { result ≡ Err FormFault.NotBuilt → param_in text.now param.now ≡ None }
{
    if is_in(param.mode) && is_integer(text, &param.subtype) {
        one_in(alloc, text, param.names.as_slice())
    } else {
        Err(FormFault::NotBuilt)
    }
}

/// The names of such parameters.
fn params_in(alloc: Global, text: &[u8], params: &[Param]) -> Result<NameList, FormFault>
    ensures ok { IfOk result (λ ps. each (param_in text.now) params.now ≡ Some ps) }
    ensures not_built { result ≡ Err FormFault.NotBuilt → each (param_in text.now) params.now ≡ None }
{
    let mut names = NameList::new(alloc);
    for param in params {
        names.push(param_in(alloc, text, param)?)?;
    }
    Ok(names)
}

/// Whether the name after the `end` is the subprogram's.
fn is_ended(text: &[u8], name: Span, end_name: Option<Span>) -> bool
    ensures { result ≡ is_ended text.now name end_name }
{
    match end_name {
        None => false,
        Some(span) => is_word(text, span, text_at(text, name)),
    }
}

/// The form with the name, the parameters and the statements of a procedure.
fn form_with(
    alloc: Global,
    text: &[u8],
    name: Span,
    params: &[Param],
    statements: &[Stmt],
) -> Result<FirstForm, FormFault>
    requires { length text.now < 2 ^ 32 - 1 }
    ensures ok { IfOk result (λ f. form_with (text_at text.now name) (each (param_in text.now) params.now) (each (statement_in text.now) statements.now) ≡ Some f) }
    ensures not_built { result ≡ Err FormFault.NotBuilt →
        form_with (text_at text.now name) (each (param_in text.now) params.now) (each (statement_in text.now) statements.now) ≡ None }
{
    let params = params_in(alloc, text, params)?;
    let assertions = assertions_in(alloc, text, statements)?;
    let name = NameText::from_bytes(alloc, text_at(text, name))?;
    Ok(FirstForm {
        name,
        params,
        assertions,
    })
}

/// The form of a procedure with this body.
fn body_in(
    alloc: Global,
    text: &[u8],
    sub: &Sub<Decl>,
    body: &Option<Body<Decl>>,
) -> Result<FirstForm, FormFault>
    requires { length text.now < 2 ^ 32 - 1 }
    ensures ok { IfOk result (λ f. body_in text.now sub.now body.now ≡ Some f) }
    ensures not_built { result ≡ Err FormFault.NotBuilt → body_in text.now sub.now body.now ≡ None }
{
    let Some(body) = body else {
        return Err(FormFault::NotBuilt);
    };
    if body.declarations.as_slice().is_empty() && is_ended(text, sub.name, body.end_name) {
        form_with(
            alloc,
            text,
            sub.name,
            sub.params.as_slice(),
            body.statements.as_slice(),
        )
    } else {
        Err(FormFault::NotBuilt)
    }
}

/// The form of a subprogram.
fn procedure_in(alloc: Global, text: &[u8], sub: &Sub<Decl>) -> Result<FirstForm, FormFault>
    requires { length text.now < 2 ^ 32 - 1 }
    ensures ok { IfOk result (λ f. procedure_in text.now sub.now ≡ Some f) }
    ensures not_built { result ≡ Err FormFault.NotBuilt → procedure_in text.now sub.now ≡ None }
{
    if sub.result.is_none() && sub.aspects.as_slice().is_empty() {
        body_in(alloc, text, sub, &sub.body)
    } else {
        Err(FormFault::NotBuilt)
    }
}

/// The form of a library unit.
fn unit_in(alloc: Global, text: &[u8], form: &UnitForm) -> Result<FirstForm, FormFault>
    requires { length text.now < 2 ^ 32 - 1 }
    ensures ok { IfOk result (λ f. unit_in text.now form.now ≡ Some f) }
    ensures not_built { result ≡ Err FormFault.NotBuilt → unit_in text.now form.now ≡ None }
{
    match form {
        UnitForm::Sub(sub) => procedure_in(alloc, text, sub),
        _ => Err(FormFault::NotBuilt),
    }
}

/// The form that a tree has, whatever its limits.
fn shape_of(alloc: Global, text: &[u8], unit: &SourceUnit) -> Result<FirstForm, FormFault>
    requires { length text.now < 2 ^ 32 - 1 }
    ensures ok { IfOk result (λ f. shape_of text.now unit.now ≡ Some f) }
    ensures not_built { result ≡ Err FormFault.NotBuilt → shape_of text.now unit.now ≡ None }
{
    if unit.context.as_slice().is_empty() {
        unit_in(alloc, text, unit.unit.form.get())
    } else {
        Err(FormFault::NotBuilt)
    }
}

/// The form of a tree over its text, which has fewer than 2^32 - 1 bytes: one procedure with nothing before it, without
/// aspects or declarations, whose parameters are each written `P : in Integer`, whose statements are each
/// `pragma Assert (A REL B);` with a number or an identifier on each side, and whose `end` has its name; within the
/// limits that `is_form` tests. Layout, comments and the case of letters are free.
///
/// It answers `NotBuilt` for any other tree.
pub fn form_of(alloc: Global, text: &[u8], unit: &SourceUnit) -> Result<FirstForm, FormFault>
    requires { length text.now < 2 ^ 32 - 1 }
    ensures ok { IfOk result (λ f. form_of text.now unit.now ≡ Some f) }
    ensures not_built { result ≡ Err FormFault.NotBuilt → form_of text.now unit.now ≡ None }
{
    let form = shape_of(alloc, text, unit)?;
    if is_form(&form) {
        Ok(form)
    } else {
        Err(FormFault::NotBuilt)
    }
}
