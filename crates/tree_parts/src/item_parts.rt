//! Parts of items and arguments, each taken as what it is.

ghost use Rattle.std.specs.Prelude.{◌≡◌, IfOk};
ghost use Rattle.tree_parts.specs.Parts.{arg_from, arg_tail_from, args_from, arms_from, item_from, optional_expr_from, optional_item_from, range_from};

use crate::Starved;
use crate::chain::Chain;
use crate::missing::{missing_expr, missing_item, nowhere};
use crate::part::Edged;
use crate::relations::{ArgTail, RelationTail};
use ada_syntax::{Arg, ArgChoice, Arm, Expr, Item, Range};
use std::alloc::Global;

/// What a phrase of items and arguments became.
pub enum ItemPart {
    Item(Item<Expr>),
    OptionalItem(Option<Item<Expr>>),
    Arms(Edged<Chain<Arm<Expr>>>),
    Args(Chain<Arg<Expr>>),
    Arg(Arg<Expr>),
    ArgTail(ArgTail),
    Range(Range<Expr>),
    OptionalExpr(Option<Expr>),
}

impl Drop for ItemPart {
    fn drop(self) {
        match self {
            ItemPart::Item(part) => drop(part),
            ItemPart::OptionalItem(part) => drop(part),
            ItemPart::Arms(part) => drop(part),
            ItemPart::Args(part) => drop(part),
            ItemPart::Arg(part) => drop(part),
            ItemPart::ArgTail(part) => drop(part),
            ItemPart::Range(part) => drop(part),
            ItemPart::OptionalExpr(part) => drop(part),
        }
    }
}

impl ItemPart {
    pub fn item(self, alloc: Global) -> Result<Item<Expr>, Starved>
        ensures { IfOk result (λ found. found ≡ item_from self) }
    {
        match self {
            ItemPart::Item(item) => Ok(item),
            other => {
                drop(other);
                missing_item(alloc)
            }
        }
    }

    pub fn optional_item(self) -> Option<Item<Expr>>
        ensures { result ≡ optional_item_from self }
    {
        match self {
            ItemPart::OptionalItem(optional_item) => optional_item,
            other => {
                drop(other);
                None
            }
        }
    }

    pub fn arms(self, alloc: Global) -> Edged<Chain<Arm<Expr>>>
        ensures { result ≡ arms_from self }
    {
        match self {
            ItemPart::Arms(arms) => arms,
            other => {
                drop(other);
                Edged {
                    edge: None,
                    value: Chain::new(alloc),
                }
            }
        }
    }

    pub fn args(self, alloc: Global) -> Chain<Arg<Expr>>
        ensures { result ≡ args_from self }
    {
        match self {
            ItemPart::Args(args) => args,
            other => {
                drop(other);
                Chain::new(alloc)
            }
        }
    }

    pub fn arg(self) -> Arg<Expr>
        ensures { result ≡ arg_from self }
    {
        match self {
            ItemPart::Arg(arg) => arg,
            other => {
                drop(other);
                Arg {
                    span: nowhere(),
                    choice: ArgChoice::Others,
                    value: None,
                }
            }
        }
    }

    pub fn arg_tail(self, alloc: Global) -> ArgTail
        ensures { result ≡ arg_tail_from self }
    {
        match self {
            ItemPart::ArgTail(arg_tail) => arg_tail,
            other => {
                drop(other);
                ArgTail::Rest(RelationTail::Nothing, Chain::new(alloc), None)
            }
        }
    }

    pub fn range(self, alloc: Global) -> Result<Range<Expr>, Starved>
        ensures { IfOk result (λ found. found ≡ range_from self) }
    {
        match self {
            ItemPart::Range(range) => Ok(range),
            other => {
                drop(other);
                Ok(Range {
                    low: missing_expr(alloc)?,
                    high: None,
                })
            }
        }
    }

    pub fn optional_expr(self) -> Option<Expr>
        ensures { result ≡ optional_expr_from self }
    {
        match self {
            ItemPart::OptionalExpr(optional_expr) => optional_expr,
            other => {
                drop(other);
                None
            }
        }
    }
}
