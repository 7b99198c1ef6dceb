//! Nodes of trees with their places.

ghost use Rattle.std.specs.Prelude.{◌≡◌, IfOk};
ghost use Rattle.tree_parts.specs.Missing.{decl_at, expr_at, item_at, stmt_at, type_def_at, unit_at};

use crate::Starved;
use ada_syntax::{
    Action, Decl, DeclForm, Expr, ExprNode, Item, ItemForm, Stmt, TypeDef, TypeForm, Unit, UnitForm,
};
use ada_text::Span;
use sqlite_items::Boxed;
use std::alloc::Global;

pub fn expr_at(alloc: Global, span: Span, node: ExprNode<Expr>) -> Result<Expr, Starved>
    ensures { IfOk result (λ made. made ≡ expr_at span node) }
{
    let node = Boxed::new(alloc, node)?;
    Ok(Expr { span, node })
}

pub fn item_at(alloc: Global, span: Span, form: ItemForm<Expr>) -> Result<Item<Expr>, Starved>
    ensures { IfOk result (λ made. made ≡ item_at span form) }
{
    let form = Boxed::new(alloc, form)?;
    Ok(Item { span, form })
}

pub fn stmt_at(alloc: Global, span: Span, action: Action<Stmt>) -> Result<Stmt, Starved>
    ensures { IfOk result (λ made. made ≡ stmt_at span action) }
{
    let action = Boxed::new(alloc, action)?;
    Ok(Stmt { span, action })
}

pub fn decl_at(alloc: Global, span: Span, form: DeclForm<Decl>) -> Result<Decl, Starved>
    ensures { IfOk result (λ made. made ≡ decl_at span form) }
{
    let form = Boxed::new(alloc, form)?;
    Ok(Decl { span, form })
}

pub fn type_def_at(alloc: Global, span: Span, form: TypeForm) -> Result<TypeDef, Starved>
    ensures { IfOk result (λ made. made ≡ type_def_at span form) }
{
    let form = Boxed::new(alloc, form)?;
    Ok(TypeDef { span, form })
}

pub fn unit_at(alloc: Global, span: Span, form: UnitForm) -> Result<Unit, Starved>
    ensures { IfOk result (λ made. made ≡ unit_at span form) }
{
    let form = Boxed::new(alloc, form)?;
    Ok(Unit { span, form })
}
