//! Parts of expressions and names, each taken as what it is.

ghost use Rattle.std.specs.Prelude.{◌≡◌, IfOk};
ghost use Rattle.tree_parts.specs.Parts.{attribute_from, expr_from, logic_tail_from, name_from, operations_from, relation_tail_from, suffixes_from};

use crate::Starved;
use crate::chain::Chain;
use crate::missing::{missing_expr, missing_name, nowhere};
use crate::part::{Edged, Ended, LogicTail, Operation};
use crate::relations::RelationTail;
use ada_syntax::{Attribute, Expr, Name, Suffix};
use std::alloc::Global;

/// What a phrase of expressions and names became.
pub enum ExpressionPart {
    Expr(Expr),
    Operations(Chain<Operation>),
    LogicTail(LogicTail),
    RelationTail(RelationTail),
    Name(Name<Expr>),
    Suffixes(Edged<Chain<Suffix<Expr>>>),
    Attribute(Ended<Attribute<Expr>>),
}

impl Drop for ExpressionPart {
    fn drop(self) {
        match self {
            ExpressionPart::Expr(part) => drop(part),
            ExpressionPart::Operations(part) => drop(part),
            ExpressionPart::LogicTail(part) => drop(part),
            ExpressionPart::RelationTail(part) => drop(part),
            ExpressionPart::Name(part) => drop(part),
            ExpressionPart::Suffixes(part) => drop(part),
            ExpressionPart::Attribute(part) => drop(part),
        }
    }
}

impl ExpressionPart {
    pub fn expr(self, alloc: Global) -> Result<Expr, Starved>
        ensures { IfOk result (λ found. found ≡ expr_from self) }
    {
        match self {
            ExpressionPart::Expr(expr) => Ok(expr),
            other => {
                drop(other);
                missing_expr(alloc)
            }
        }
    }

    pub fn operations(self, alloc: Global) -> Chain<Operation>
        ensures { result ≡ operations_from self }
    {
        match self {
            ExpressionPart::Operations(operations) => operations,
            other => {
                drop(other);
                Chain::new(alloc)
            }
        }
    }

    pub fn logic_tail(self, alloc: Global) -> Result<LogicTail, Starved>
        ensures { IfOk result (λ found. found ≡ logic_tail_from self) }
    {
        match self {
            ExpressionPart::LogicTail(logic_tail) => Ok(logic_tail),
            other => {
                drop(other);
                Ok(LogicTail {
                    short: false,
                    operand: missing_expr(alloc)?,
                    more: Chain::new(alloc),
                })
            }
        }
    }

    pub fn relation_tail(self) -> RelationTail
        ensures { result ≡ relation_tail_from self }
    {
        match self {
            ExpressionPart::RelationTail(relation_tail) => relation_tail,
            other => {
                drop(other);
                RelationTail::Nothing
            }
        }
    }

    pub fn name(self, alloc: Global) -> Name<Expr>
        ensures { result ≡ name_from self }
    {
        match self {
            ExpressionPart::Name(name) => name,
            other => {
                drop(other);
                missing_name(alloc)
            }
        }
    }

    pub fn suffixes(self, alloc: Global) -> Edged<Chain<Suffix<Expr>>>
        ensures { result ≡ suffixes_from self }
    {
        match self {
            ExpressionPart::Suffixes(suffixes) => suffixes,
            other => {
                drop(other);
                Edged {
                    edge: None,
                    value: Chain::new(alloc),
                }
            }
        }
    }

    pub fn attribute(self) -> Ended<Attribute<Expr>>
        ensures { result ≡ attribute_from self }
    {
        match self {
            ExpressionPart::Attribute(attribute) => attribute,
            other => {
                drop(other);
                Ended {
                    value: Attribute::Range,
                    end: nowhere(),
                }
            }
        }
    }
}
