//! What becomes of statements (Ada RM 5, 6.4, 6.5).

ghost use Rattle.std.specs.Prelude.{◌≡◌, OnOk};
ghost use Rattle.ada_tree.specs.Statements.{case_rule, choice_rule, direction_rule, if_rule, loop_rule, statement_rule};

use crate::rules::{CaseRule, ChoiceRule, DirectionRule, IfRule, LoopRule, StatementRule};
use ada_syntax::{Action, Alternative, Branch, Choice, LoopHead};
use std::alloc::Global;
use tree_parts::{Chain, ChoicePart, Edged, Parts, Starved, StatementPart, joined, named_action};

/// Takes the parts of a production from the front, and puts there what the rule makes of them.
pub fn apply_statement(alloc: Global, rule: StatementRule, parts: &mut Parts) -> Result<(), Starved>
    ensures { OnOk result (parts.new ≡ statement_rule rule parts.old) }
{
    match rule {
        // Stmts = Stmt StMore | StMore = Stmt StMore
        StatementRule::Stmts => {
            let stmt = parts.statement(alloc).stmt(alloc)?;
            let stmts = parts.statement(alloc).stmts(alloc).with_first(stmt)?;
            parts.put_statement(alloc, StatementPart::Stmts(stmts))
        }
        // StMore = | Else =
        StatementRule::NoStmts => {
            parts.put_statement(alloc, StatementPart::Stmts(Chain::new(alloc)))
        }
        // Stmt = null ;
        StatementRule::Null => {
            let start = parts.place();
            let end = parts.place();
            parts.put_stmt(alloc, joined(start, end), Action::Null)
        }
        // Stmt = Name Act ;
        StatementRule::Name => {
            let name = parts.expression().name(alloc);
            let value = parts.item().optional_expr();
            let end = parts.place();
            parts.put_stmt(alloc, joined(name.span, end), named_action(name, value))
        }
        // Stmt = exit ExWhen ;
        StatementRule::Exit => {
            let start = parts.place();
            let condition = parts.item().optional_expr();
            let end = parts.place();
            parts.put_stmt(alloc, joined(start, end), Action::Exit(condition))
        }
        // Stmt = return RetVal ;
        StatementRule::Return => {
            let start = parts.place();
            let value = parts.item().optional_expr();
            let end = parts.place();
            parts.put_stmt(alloc, joined(start, end), Action::Return(value))
        }
        // Stmt = Pragma
        StatementRule::StmtPragma => {
            let pragma = parts.declaration().pragma(alloc);
            parts.put_stmt(alloc, pragma.span, Action::Pragma(pragma))
        }
    }
}

/// Takes the parts of a production from the front, and puts there what the rule makes of them.
pub fn apply_if(alloc: Global, rule: IfRule, parts: &mut Parts) -> Result<(), Starved>
    ensures { OnOk result (parts.new ≡ if_rule rule parts.old) }
{
    match rule {
        // Stmt = if Expr then Stmts Elsifs Else end if ;
        IfRule::If => {
            let start = parts.place();
            let condition = parts.expression().expr(alloc)?;
            parts.skip();
            let stmts = parts.statement(alloc).stmts(alloc);
            let branches = parts.statement(alloc).branches(alloc);
            let otherwise = parts.statement(alloc).stmts(alloc);
            parts.skip();
            parts.skip();
            let end = parts.place();
            let branches = branches.with_first(Branch {
                condition,
                body: stmts.into_items(),
            })?;
            parts.put_stmt(
                alloc,
                joined(start, end),
                Action::If(branches.into_items(), otherwise.into_items()),
            )
        }
        // Elsifs = elsif Expr then Stmts Elsifs
        IfRule::Branches => {
            parts.skip();
            let condition = parts.expression().expr(alloc)?;
            parts.skip();
            let stmts = parts.statement(alloc).stmts(alloc);
            let branches = parts.statement(alloc).branches(alloc).with_first(Branch {
                condition,
                body: stmts.into_items(),
            })?;
            parts.put_statement(alloc, StatementPart::Branches(branches))
        }
        // Elsifs =
        IfRule::NoBranches => {
            parts.put_statement(alloc, StatementPart::Branches(Chain::new(alloc)))
        }
    }
}

/// Takes the parts of a production from the front, and puts there what the rule makes of them.
pub fn apply_case(alloc: Global, rule: CaseRule, parts: &mut Parts) -> Result<(), Starved>
    ensures { OnOk result (parts.new ≡ case_rule rule parts.old) }
{
    match rule {
        // Stmt = case Expr is When Whens end case ;
        CaseRule::Case => {
            let start = parts.place();
            let selector = parts.expression().expr(alloc)?;
            parts.skip();
            let first = parts.statement(alloc).alternative(alloc);
            let alternatives = parts.statement(alloc).alternatives(alloc);
            parts.skip();
            parts.skip();
            let end = parts.place();
            let alternatives = alternatives.with_first(first)?;
            parts.put_stmt(
                alloc,
                joined(start, end),
                Action::Case(selector, alternatives.into_items()),
            )
        }
        // When = when Choice Choices => Stmts
        CaseRule::Alternative => {
            parts.skip();
            let choice = parts.choice().choice();
            let choices = parts.choice().choices(alloc);
            parts.skip();
            let stmts = parts.statement(alloc).stmts(alloc);
            let choices = choices.with_first(choice)?;
            parts.put_statement(
                alloc,
                StatementPart::Alternative(Alternative {
                    choices: choices.into_items(),
                    body: stmts.into_items(),
                }),
            )
        }
        // Whens = When Whens
        CaseRule::Alternatives => {
            let alternative = parts.statement(alloc).alternative(alloc);
            let alternatives = parts
                .statement(alloc)
                .alternatives(alloc)
                .with_first(alternative)?;
            parts.put_statement(alloc, StatementPart::Alternatives(alternatives))
        }
        // Whens =
        CaseRule::NoAlternatives => {
            parts.put_statement(alloc, StatementPart::Alternatives(Chain::new(alloc)))
        }
    }
}

/// Takes the parts of a production from the front, and puts there what the rule makes of them.
pub fn apply_choice(alloc: Global, rule: ChoiceRule, parts: &mut Parts) -> Result<(), Starved>
    ensures { OnOk result (parts.new ≡ choice_rule rule parts.old) }
{
    match rule {
        // Choice = others
        ChoiceRule::ChoiceOthers => {
            parts.skip();
            parts.put_choice(alloc, ChoicePart::Choice(Choice::Others))
        }
        // Choice = Range
        ChoiceRule::ChoiceRange => {
            let range = parts.item().range(alloc)?;
            parts.put_choice(alloc, ChoicePart::Choice(Choice::Range(range)))
        }
        // Choices = "|" Choice Choices
        ChoiceRule::Choices => {
            parts.skip();
            let choice = parts.choice().choice();
            let choices = parts.choice().choices(alloc).with_first(choice)?;
            parts.put_choice(alloc, ChoicePart::Choices(choices))
        }
        // Choices =
        ChoiceRule::NoChoices => { parts.put_choice(alloc, ChoicePart::Choices(Chain::new(alloc))) }
    }
}

/// Takes the parts of a production from the front, and puts there what the rule makes of them.
pub fn apply_loop(alloc: Global, rule: LoopRule, parts: &mut Parts) -> Result<(), Starved>
    ensures { OnOk result (parts.new ≡ loop_rule rule parts.old) }
{
    match rule {
        // Stmt = Head loop Stmts end loop ;
        LoopRule::Loop => {
            let head = parts.choice().loop_head();
            let start = parts.place();
            let stmts = parts.statement(alloc).stmts(alloc);
            parts.skip();
            parts.skip();
            let end = parts.place();
            parts.put_stmt(
                alloc,
                joined(head.edge.unwrap_or(start), end),
                Action::Loop(head.value, stmts.into_items()),
            )
        }
        // Head = while Expr
        LoopRule::While => {
            let start = parts.place();
            let condition = parts.expression().expr(alloc)?;
            parts.put_choice(
                alloc,
                ChoicePart::LoopHead(Edged {
                    value: LoopHead::While(condition),
                    edge: Some(start),
                }),
            )
        }
        // Head = for Id in Rev Range
        LoopRule::For => {
            let start = parts.place();
            let name = parts.place();
            parts.skip();
            let reverse = parts.choice().flag();
            let range = parts.item().range(alloc)?;
            parts.put_choice(
                alloc,
                ChoicePart::LoopHead(Edged {
                    value: LoopHead::For(name, reverse, range),
                    edge: Some(start),
                }),
            )
        }
        // Head =
        LoopRule::Forever => {
            parts.put_choice(
                alloc,
                ChoicePart::LoopHead(Edged {
                    value: LoopHead::Forever,
                    edge: None,
                }),
            )
        }
    }
}

/// Takes the parts of a production from the front, and puts there what the rule makes of them.
pub fn apply_direction(alloc: Global, rule: DirectionRule, parts: &mut Parts) -> Result<(), Starved>
    ensures { OnOk result (parts.new ≡ direction_rule rule parts.old) }
{
    match rule {
        // Rev = reverse
        DirectionRule::Reverse => {
            parts.skip();
            parts.put_choice(alloc, ChoicePart::Flag(true))
        }
        // Rev =
        DirectionRule::Forward => { parts.put_choice(alloc, ChoicePart::Flag(false)) }
    }
}
