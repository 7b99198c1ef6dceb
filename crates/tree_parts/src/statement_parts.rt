//! Parts of statements, choices and heads of loops, each taken as what it is.

ghost use Rattle.std.specs.Prelude.{◌≡◌, IfOk};
ghost use Rattle.tree_parts.specs.Parts.{alternative_from, alternatives_from, branches_from, choice_from, choices_from, flag_from, loop_head_from, stmt_from, stmts_from};

use crate::Starved;
use crate::chain::Chain;
use crate::missing::missing_stmt;
use crate::part::Edged;
use ada_syntax::{Alternative, Branch, Choice, LoopHead, Stmt};
use sqlite_items::Items;
use std::alloc::Global;

/// What a phrase of statements became.
pub enum StatementPart {
    Stmts(Chain<Stmt>),
    Stmt(Stmt),
    Branches(Chain<Branch<Stmt>>),
    Alternative(Alternative<Stmt>),
    Alternatives(Chain<Alternative<Stmt>>),
}

impl Drop for StatementPart {
    fn drop(self) {
        match self {
            StatementPart::Stmts(part) => drop(part),
            StatementPart::Stmt(part) => drop(part),
            StatementPart::Branches(part) => drop(part),
            StatementPart::Alternative(part) => drop(part),
            StatementPart::Alternatives(part) => drop(part),
        }
    }
}

impl StatementPart {
    pub fn stmts(self, alloc: Global) -> Chain<Stmt>
        ensures { result ≡ stmts_from self }
    {
        match self {
            StatementPart::Stmts(stmts) => stmts,
            other => {
                drop(other);
                Chain::new(alloc)
            }
        }
    }

    pub fn stmt(self, alloc: Global) -> Result<Stmt, Starved>
        ensures { IfOk result (λ found. found ≡ stmt_from self) }
    {
        match self {
            StatementPart::Stmt(stmt) => Ok(stmt),
            other => {
                drop(other);
                missing_stmt(alloc)
            }
        }
    }

    pub fn branches(self, alloc: Global) -> Chain<Branch<Stmt>>
        ensures { result ≡ branches_from self }
    {
        match self {
            StatementPart::Branches(branches) => branches,
            other => {
                drop(other);
                Chain::new(alloc)
            }
        }
    }

    pub fn alternative(self, alloc: Global) -> Alternative<Stmt>
        ensures { result ≡ alternative_from self }
    {
        match self {
            StatementPart::Alternative(alternative) => alternative,
            other => {
                drop(other);
                Alternative {
                    choices: Items::new(alloc),
                    body: Items::new(alloc),
                }
            }
        }
    }

    pub fn alternatives(self, alloc: Global) -> Chain<Alternative<Stmt>>
        ensures { result ≡ alternatives_from self }
    {
        match self {
            StatementPart::Alternatives(alternatives) => alternatives,
            other => {
                drop(other);
                Chain::new(alloc)
            }
        }
    }
}

/// What a phrase of choices and of heads of loops became.
pub enum ChoicePart {
    Choice(Choice),
    Choices(Chain<Choice>),
    LoopHead(Edged<LoopHead>),
    Flag(bool),
}

impl Drop for ChoicePart {
    fn drop(self) {
        match self {
            ChoicePart::Choice(part) => drop(part),
            ChoicePart::Choices(part) => drop(part),
            ChoicePart::LoopHead(part) => drop(part),
            ChoicePart::Flag(_) => {}
        }
    }
}

impl ChoicePart {
    pub fn choice(self) -> Choice
        ensures { result ≡ choice_from self }
    {
        match self {
            ChoicePart::Choice(choice) => choice,
            other => {
                drop(other);
                Choice::Others
            }
        }
    }

    pub fn choices(self, alloc: Global) -> Chain<Choice>
        ensures { result ≡ choices_from self }
    {
        match self {
            ChoicePart::Choices(choices) => choices,
            other => {
                drop(other);
                Chain::new(alloc)
            }
        }
    }

    pub fn loop_head(self) -> Edged<LoopHead>
        ensures { result ≡ loop_head_from self }
    {
        match self {
            ChoicePart::LoopHead(loop_head) => loop_head,
            other => {
                drop(other);
                Edged {
                    edge: None,
                    value: LoopHead::Forever,
                }
            }
        }
    }

    pub fn flag(self) -> bool
        ensures { result ≡ flag_from self }
    {
        match self {
            ChoicePart::Flag(flag) => flag,
            other => {
                drop(other);
                false
            }
        }
    }
}
