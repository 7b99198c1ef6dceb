//! What becomes of operators (Ada RM 4.4, 4.5).

ghost use Rattle.std.specs.Prelude.{◌≡◌, OnOk};
ghost use Rattle.ada_tree.specs.Expressions.{logic_rule, operation_rule, relation_rule};

use crate::rules::{LogicRule, OperationRule, RelationRule};
use sqlite_items::Boxed;
use std::alloc::Global;
use tree_parts::{
    Chain, ExpressionPart, LogicTail, Operation, Parts, RelationTail, Starved, grouped,
    logic_operator, operator_of, short_operator_of, unary,
};

/// Takes the parts of a production from the front, and puts there what the rule makes of them.
pub fn apply_logic(alloc: Global, rule: LogicRule, parts: &mut Parts) -> Result<(), Starved>
    ensures { OnOk result (parts.new ≡ logic_rule rule parts.old) }
{
    match rule {
        // Logic = and AndRest | Logic = or OrRest
        LogicRule::Logic => {
            let token = parts.token();
            let tail = parts.expression().logic_tail(alloc)?;
            let LogicTail {
                short,
                operand,
                mut more,
            } = tail;
            let more = more.with_first(Operation {
                place: token.span,
                operator: logic_operator(short, token.kind),
                operand,
            })?;
            parts.put_expression(ExpressionPart::Operations(more))
        }
        // AndRest = then Rel ThenMore | OrRest = else Rel ElseMore
        LogicRule::LogicShort => {
            parts.skip();
            let operand = parts.expression().expr(alloc)?;
            let more = parts.expression().operations(alloc);
            parts.put_expression(ExpressionPart::LogicTail(LogicTail {
                short: true,
                operand,
                more,
            }))
        }
        // AndRest = Rel AndMore | OrRest = Rel OrMore
        LogicRule::LogicPlain => {
            let operand = parts.expression().expr(alloc)?;
            let more = parts.expression().operations(alloc);
            parts.put_expression(ExpressionPart::LogicTail(LogicTail {
                short: false,
                operand,
                more,
            }))
        }
        // ThenMore = and then Rel ThenMore | ElseMore = or else Rel ElseMore
        LogicRule::ShortOperations => {
            let token = parts.token();
            parts.skip();
            let operand = parts.expression().expr(alloc)?;
            let more = parts.expression().operations(alloc).with_first(Operation {
                place: token.span,
                operator: short_operator_of(token.kind),
                operand,
            })?;
            parts.put_expression(ExpressionPart::Operations(more))
        }
    }
}

/// Takes the parts of a production from the front, and puts there what the rule makes of them.
pub fn apply_operation(alloc: Global, rule: OperationRule, parts: &mut Parts) -> Result<(), Starved>
    ensures { OnOk result (parts.new ≡ operation_rule rule parts.old) }
{
    match rule {
        // Expr = Rel Logic | Simple = Term AddMore | Term = Factor MulMore | Factor = Primary Pow
        OperationRule::Grouped => {
            let first = parts.expression().expr(alloc)?;
            let more = parts.expression().operations(alloc);
            parts.put_expression(ExpressionPart::Expr(grouped(alloc, first, more)?))
        }
        // AddMore = + Term AddMore, and the like
        OperationRule::Operations => {
            let token = parts.token();
            let operand = parts.expression().expr(alloc)?;
            let more = parts.expression().operations(alloc).with_first(Operation {
                place: token.span,
                operator: operator_of(token.kind),
                operand,
            })?;
            parts.put_expression(ExpressionPart::Operations(more))
        }
        // AddMore =, and the like
        OperationRule::NoOperations => {
            parts.put_expression(ExpressionPart::Operations(Chain::new(alloc)))
        }
        // Pow = ** Primary
        OperationRule::Power => {
            let token = parts.token();
            let operand = parts.expression().expr(alloc)?;
            let more = Chain::new(alloc);
            let more = more.with_first(Operation {
                place: token.span,
                operator: operator_of(token.kind),
                operand,
            })?;
            parts.put_expression(ExpressionPart::Operations(more))
        }
        // Simple = + Term AddMore | Simple = - Term AddMore
        OperationRule::Signed => {
            let token = parts.token();
            let operand = parts.expression().expr(alloc)?;
            let more = parts.expression().operations(alloc);
            let first = unary(alloc, token, operand)?;
            parts.put_expression(ExpressionPart::Expr(grouped(alloc, first, more)?))
        }
        // Factor = abs Primary | Factor = not Primary
        OperationRule::Prefixed => {
            let token = parts.token();
            let operand = parts.expression().expr(alloc)?;
            parts.put_expression(ExpressionPart::Expr(unary(alloc, token, operand)?))
        }
    }
}

/// Takes the parts of a production from the front, and puts there what the rule makes of them.
pub fn apply_relation(alloc: Global, rule: RelationRule, parts: &mut Parts) -> Result<(), Starved>
    ensures { OnOk result (parts.new ≡ relation_rule rule parts.old) }
{
    match rule {
        // Rel = Simple RelTail
        RelationRule::Relation => {
            let first = parts.expression().expr(alloc)?;
            let tail = parts.expression().relation_tail();
            parts.put_expression(ExpressionPart::Expr(tail.related(alloc, first)?))
        }
        // RelTail = RelOp Simple
        RelationRule::Compare => {
            let token = parts.token();
            let operand = parts.expression().expr(alloc)?;
            parts.put_expression(ExpressionPart::RelationTail(RelationTail::Compare(Operation {
                place: token.span,
                operator: operator_of(token.kind),
                operand,
            })))
        }
        // RelTail = in Range
        RelationRule::In => {
            let place = parts.place();
            let range = parts.item().range(alloc)?;
            parts.put_expression(ExpressionPart::RelationTail(RelationTail::Member(
                place,
                false,
                Boxed::new(alloc, range)?,
            )))
        }
        // RelTail = not in Range
        RelationRule::NotIn => {
            let place = parts.place();
            parts.skip();
            let range = parts.item().range(alloc)?;
            parts.put_expression(ExpressionPart::RelationTail(RelationTail::Member(
                place,
                true,
                Boxed::new(alloc, range)?,
            )))
        }
        // RelTail =
        RelationRule::NoRelation => {
            parts.put_expression(ExpressionPart::RelationTail(RelationTail::Nothing))
        }
    }
}
