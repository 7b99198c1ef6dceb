//! What stands in for a part that is none. A derivation has no such part.

ghost use Rattle.std.specs.Prelude.{◌≡◌, IfOk};
ghost use Rattle.tree_parts.specs.Missing.{missing_decl, missing_expr, missing_item, missing_name, missing_source_unit, missing_stmt, missing_sub, missing_sub_ind, missing_type_def, missing_unit, nothing, nowhere};

use crate::Starved;
use crate::nodes::{decl_at, expr_at, item_at, stmt_at, type_def_at, unit_at};
use ada_syntax::{
    Action, Decl, DeclForm, Expr, ExprNode, Item, ItemForm, Name, SourceUnit, Stmt, Sub, SubInd,
    TypeDef, TypeForm, Unit, UnitForm,
};
use ada_text::{Span, Token, TokenKind};
use sqlite_items::Items;
use std::alloc::Global;

/// No place.
pub fn nowhere() -> Span
    ensures { result ≡ nowhere }
{
    Span { from: 0, to: 0 }
}

/// No token.
pub fn nothing() -> Token
    ensures { result ≡ nothing }
{
    Token {
        kind: TokenKind::Id,
        span: nowhere(),
    }
}

pub fn missing_expr(alloc: Global) -> Result<Expr, Starved>
    ensures { IfOk result (λ found. found ≡ missing_expr) }
{
    expr_at(alloc, nowhere(), ExprNode::Null)
}

pub fn missing_item(alloc: Global) -> Result<Item<Expr>, Starved>
    ensures { IfOk result (λ found. found ≡ missing_item) }
{
    item_at(alloc, nowhere(), ItemForm::Plain(missing_expr(alloc)?))
}

pub fn missing_stmt(alloc: Global) -> Result<Stmt, Starved>
    ensures { IfOk result (λ found. found ≡ missing_stmt) }
{
    stmt_at(alloc, nowhere(), Action::Null)
}

pub fn missing_decl(alloc: Global) -> Result<Decl, Starved>
    ensures { IfOk result (λ found. found ≡ missing_decl) }
{
    decl_at(alloc, nowhere(), DeclForm::Use(Items::new(alloc)))
}

pub fn missing_type_def(alloc: Global) -> Result<TypeDef, Starved>
    ensures { IfOk result (λ found. found ≡ missing_type_def) }
{
    type_def_at(alloc, nowhere(), TypeForm::Enumeration(Items::new(alloc)))
}

pub fn missing_name(alloc: Global) -> Name<Expr>
    ensures { result ≡ missing_name }
{
    Name {
        span: nowhere(),
        first: nowhere(),
        suffixes: Items::new(alloc),
    }
}

pub fn missing_sub_ind(alloc: Global) -> SubInd
    ensures { result ≡ missing_sub_ind }
{
    SubInd {
        span: nowhere(),
        name: missing_name(alloc),
        bounds: None,
    }
}

pub fn missing_sub(alloc: Global) -> Sub<Decl>
    ensures { result ≡ missing_sub }
{
    Sub {
        span: nowhere(),
        name: nowhere(),
        params: Items::new(alloc),
        result: None,
        aspects: Items::new(alloc),
        body: None,
    }
}

pub fn missing_unit(alloc: Global) -> Result<Unit, Starved>
    ensures { IfOk result (λ found. found ≡ missing_unit) }
{
    unit_at(alloc, nowhere(), UnitForm::Sub(missing_sub(alloc)))
}

pub fn missing_source_unit(alloc: Global) -> Result<SourceUnit, Starved>
    ensures { IfOk result (λ found. found ≡ missing_source_unit) }
{
    Ok(SourceUnit {
        span: nowhere(),
        context: Items::new(alloc),
        unit: missing_unit(alloc)?,
    })
}
