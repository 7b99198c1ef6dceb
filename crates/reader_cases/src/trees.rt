//! Trees by their shapes.

ghost use Rattle.std.specs.Prelude.{◌<◌, ◌^◌, length};

use crate::expressions::roots_of;
use ada_tree::{
    Action, Body, Decl, DeclForm, IndexForm, LoopHead, Object, SourceUnit, Stmt, Sub, TypeForm,
    UnitForm,
};
use spark_reader::{ReadRefusal, read};
use std::alloc::{AllocError, Global};

/// A form, with how many parts it has.
type Counted = (&'static str, usize);

fn push_counted(out: &mut String, counted: Counted) -> Result<(), AllocError> {
    let (form, count) = counted;
    write!(out, "{form} {count}")
}

/// That a text has no tree.
fn push_none(out: &mut String, refusal: ReadRefusal) -> Result<(), AllocError> {
    match refusal {
        ReadRefusal::Starved => out.push_str("Starved"),
        _ => out.push_str("no tree"),
    }
}

/// The body of the subprogram of a file, where it is one.
fn body_of(unit: &SourceUnit) -> Option<&Body<Decl>> {
    match unit.unit.form.get() {
        UnitForm::Sub(
            Sub {
                body: Some(body),
                ..
            },
        ) => Some(body),
        _ => None,
    }
}

fn first_statement(unit: &SourceUnit) -> Option<&Stmt> {
    match body_of(unit) {
        Some(body) => body.statements.as_slice().first(),
        None => None,
    }
}

fn first_declaration(unit: &SourceUnit) -> Option<&Decl> {
    match body_of(unit) {
        Some(body) => body.declarations.as_slice().first(),
        None => None,
    }
}

fn push_assigned(out: &mut String, statement: Option<&Stmt>) -> Result<(), AllocError> {
    let Some(Action::Assign(_, value)) = statement.map(|stmt| stmt.action.get()) else {
        return out.push_str("no assignment");
    };
    let roots = roots_of(value);
    let (root, left, right) = (roots.root, roots.left, roots.right);
    write!(out, "{root} [{left}] [{right}]")
}

/// The roots of the value that the first statement of a subprogram assigns: of the whole, and of its parts.
pub fn push_value(alloc: Global, out: &mut String, text: &[u8]) -> Result<(), AllocError>
    requires { length text.now < 2 ^ 31 }
{
    match read(alloc, text) {
        Ok(unit) => push_assigned(out, first_statement(&unit)),
        Err(refusal) => push_none(out, refusal),
    }
}

/// The form of a statement, with how many branches, alternatives, statements or arguments it has.
fn statement_form(statement: &Stmt) -> Counted {
    match statement.action.get() {
        Action::Null => ("null", 0),
        Action::Call(_) => ("call", 0),
        Action::Assign(_, _) => (":=", 0),
        Action::If(branches, other) if other.is_empty() => ("if", branches.len()),
        Action::If(branches, _) => ("if else", branches.len()),
        Action::Case(_, alternatives) => ("case", alternatives.len()),
        Action::Loop(LoopHead::Forever, body) => ("loop", body.len()),
        Action::Loop(LoopHead::While(_), body) => ("while", body.len()),
        Action::Loop(LoopHead::For(_, true, _), body) => ("for reverse", body.len()),
        Action::Loop(LoopHead::For(_, false, _), body) => ("for", body.len()),
        Action::Exit(None) => ("exit", 0),
        Action::Exit(Some(_)) => ("exit when", 0),
        Action::Return(None) => ("return", 0),
        Action::Return(Some(_)) => ("return x", 0),
        Action::Pragma(pragma) => ("pragma", pragma.args.len()),
    }
}

/// The form of the first statement of a subprogram.
pub fn push_statement(alloc: Global, out: &mut String, text: &[u8]) -> Result<(), AllocError>
    requires { length text.now < 2 ^ 31 }
{
    match read(alloc, text) {
        Ok(unit) => match first_statement(&unit) {
            Some(statement) => push_counted(out, statement_form(statement)),
            None => out.push_str("no statement"),
        },
        Err(refusal) => push_none(out, refusal),
    }
}

fn index_form(form: &IndexForm) -> &'static str {
    match form {
        IndexForm::Alone => "array",
        IndexForm::UpTo(_) => "array ..",
        IndexForm::Unconstrained => "array <>",
        IndexForm::Within(_) => "array range",
    }
}

/// The form of a type, with how many literals or components it has.
fn type_form(form: &TypeForm) -> Counted {
    match form {
        TypeForm::Range(_) => ("range", 0),
        TypeForm::Modular(_) => ("mod", 0),
        TypeForm::Enumeration(literals) => ("enumeration", literals.len()),
        TypeForm::Array(index, _) => (index_form(&index.form), 0),
        TypeForm::Record(components) => ("record", components.len()),
        TypeForm::Derived(_) => ("new", 0),
    }
}

fn object_form(object: &Object) -> &'static str {
    match (&object.subtype, object.constant) {
        (None, _) => "number",
        (Some(_), true) => "constant",
        (Some(_), false) => "variable",
    }
}

fn subprogram_form(sub: &Sub<Decl>) -> Counted {
    match &sub.result {
        Some(_) => ("function", sub.params.len()),
        None => ("procedure", sub.params.len()),
    }
}

/// The form of a declaration, with how many names, parameters or parts it has.
fn declaration_form(declaration: &Decl) -> Counted {
    match declaration.form.get() {
        DeclForm::Type(_, definition) => type_form(definition.form.get()),
        DeclForm::Subtype(_, subtype) if subtype.bounds.is_some() => ("subtype range", 0),
        DeclForm::Subtype(_, _) => ("subtype", 0),
        DeclForm::Object(names, object) => (object_form(object), names.len()),
        DeclForm::Sub(sub) => subprogram_form(sub),
        DeclForm::Pragma(pragma) => ("pragma", pragma.args.len()),
        DeclForm::Use(names) => ("use", names.len()),
    }
}

/// The form of the first declaration of a subprogram.
pub fn push_declaration(alloc: Global, out: &mut String, text: &[u8]) -> Result<(), AllocError>
    requires { length text.now < 2 ^ 31 }
{
    match read(alloc, text) {
        Ok(unit) => match first_declaration(&unit) {
            Some(declaration) => push_counted(out, declaration_form(declaration)),
            None => out.push_str("no declaration"),
        },
        Err(refusal) => push_none(out, refusal),
    }
}

/// The form of a unit, with how many declarations it has.
fn unit_form(form: &UnitForm) -> Counted {
    match form {
        UnitForm::Package(package) if package.private.is_some() => {
            ("package private", package.declarations.len())
        }
        UnitForm::Package(package) => ("package", package.declarations.len()),
        UnitForm::PackageBody(body) => ("package body", body.declarations.len()),
        UnitForm::Sub(
            Sub {
                body: Some(body),
                ..
            },
        ) => ("body", body.declarations.len()),
        UnitForm::Sub(_) => ("subprogram", 0),
    }
}

/// The form of a unit, with how many declarations it has and how much stands before it.
pub fn push_unit(alloc: Global, out: &mut String, text: &[u8]) -> Result<(), AllocError>
    requires { length text.now < 2 ^ 31 }
{
    match read(alloc, text) {
        Ok(unit) => {
            let (form, declarations) = unit_form(unit.unit.form.get());
            let context = unit.context.len();
            write!(out, "{form} {declarations} {context}")
        }
        Err(refusal) => push_none(out, refusal),
    }
}

/// Where the tree of a text ends, in bytes, and how many statements its subprogram has.
pub fn push_extent(alloc: Global, out: &mut String, text: &[u8]) -> Result<(), AllocError>
    requires { length text.now < 2 ^ 31 }
{
    match read(alloc, text) {
        Ok(unit) => {
            let to = unit.span.to;
            let statements = match body_of(&unit) {
                Some(body) => body.statements.len(),
                None => 0,
            };
            write!(out, "{to} {statements}")
        }
        Err(refusal) => push_none(out, refusal),
    }
}
