//! What becomes of ranges, arguments, and conditional and quantified expressions (Ada RM 3.5, 4.3, 4.5.7, 4.5.8, 6.4).

ghost use Rattle.std.specs.Prelude.{◌≡◌, OnOk};
ghost use Rattle.ada_tree.specs.Items.{arg_rule, args_rule, conditional_rule, item_rule, optional_rule};

use crate::rules::{ArgRule, ArgsRule, ConditionalRule, ItemRule, OptionalRule};
use ada_syntax::{Arg, ArgChoice, Arm, ItemForm, Range};
use std::alloc::Global;
use tree_parts::{
    ArgTail, Chain, Edged, ItemPart, Parts, Starved, expr_end, item_end, joined, plain,
    quantifier_of,
};

/// Takes the parts of a production from the front, and puts there what the rule makes of them.
pub fn apply_optional(alloc: Global, rule: OptionalRule, parts: &mut Parts) -> Result<(), Starved>
    ensures { OnOk result (parts.new ≡ optional_rule rule parts.old) }
{
    match rule {
        // Init = := Expr, and the like
        OptionalRule::SomeExprAfter => {
            parts.skip();
            let expr = parts.expression().expr(alloc)?;
            parts.put_item(alloc, ItemPart::OptionalExpr(Some(expr)))
        }
        // RetVal = Expr
        OptionalRule::SomeExpr => {
            let expr = parts.expression().expr(alloc)?;
            parts.put_item(alloc, ItemPart::OptionalExpr(Some(expr)))
        }
        // Init =, and the like
        OptionalRule::NoExpr => { parts.put_item(alloc, ItemPart::OptionalExpr(None)) }
        // AspVal = => Item | ArgVal = => Item
        OptionalRule::SomeItem => {
            parts.skip();
            let item = parts.item().item(alloc)?;
            parts.put_item(alloc, ItemPart::OptionalItem(Some(item)))
        }
        // AspVal = | ArgVal =
        OptionalRule::NoItem => { parts.put_item(alloc, ItemPart::OptionalItem(None)) }
    }
}

/// Takes the parts of a production from the front, and puts there what the rule makes of them.
pub fn apply_item(alloc: Global, rule: ItemRule, parts: &mut Parts) -> Result<(), Starved>
    ensures { OnOk result (parts.new ≡ item_rule rule parts.old) }
{
    match rule {
        // Range = Simple RgTail
        ItemRule::Range => {
            let low = parts.expression().expr(alloc)?;
            let high = parts.item().optional_expr();
            parts.put_item(alloc, ItemPart::Range(Range { low, high }))
        }
        // Item = Expr
        ItemRule::Plain => {
            let expr = parts.expression().expr(alloc)?;
            parts.put_item(alloc, ItemPart::Item(plain(alloc, expr)?))
        }
        // Cond = for AllSome Id in Range => Expr
        ItemRule::Quantified => {
            let start = parts.place();
            let quantifier = parts.token();
            let name = parts.place();
            parts.skip();
            let range = parts.item().range(alloc)?;
            parts.skip();
            let predicate = parts.expression().expr(alloc)?;
            parts.put_formed_item(
                alloc,
                joined(start, predicate.span),
                ItemForm::Quantified(quantifier_of(quantifier.kind), name, range, predicate),
            )
        }
    }
}

/// Takes the parts of a production from the front, and puts there what the rule makes of them.
pub fn apply_conditional(
    alloc: Global,
    rule: ConditionalRule,
    parts: &mut Parts,
) -> Result<(), Starved>
    ensures { OnOk result (parts.new ≡ conditional_rule rule parts.old) }
{
    match rule {
        // Cond = if Expr then Expr IfMore IfElse
        ConditionalRule::If => {
            let start = parts.place();
            let condition = parts.expression().expr(alloc)?;
            parts.skip();
            let gives = parts.expression().expr(alloc)?;
            let arms = parts.item().arms(alloc);
            let otherwise = parts.item().optional_expr();
            let end = expr_end(&otherwise, arms.edge.unwrap_or(gives.span));
            let arms = arms.value.with_first(Arm { condition, gives })?;
            parts.put_formed_item(
                alloc,
                joined(start, end),
                ItemForm::If(arms.into_items(), otherwise),
            )
        }
        // IfMore = elsif Expr then Expr IfMore
        ConditionalRule::Arms => {
            parts.skip();
            let condition = parts.expression().expr(alloc)?;
            parts.skip();
            let gives = parts.expression().expr(alloc)?;
            let arms = parts.item().arms(alloc);
            let end = arms.edge.unwrap_or(gives.span);
            let value = arms.value.with_first(Arm { condition, gives })?;
            parts.put_item(
                alloc,
                ItemPart::Arms(Edged {
                    value,
                    edge: Some(end),
                }),
            )
        }
        // IfMore =
        ConditionalRule::NoArms => {
            parts.put_item(
                alloc,
                ItemPart::Arms(Edged {
                    value: Chain::new(alloc),
                    edge: None,
                }),
            )
        }
    }
}

/// Takes the parts of a production from the front, and puts there what the rule makes of them.
pub fn apply_args(alloc: Global, rule: ArgsRule, parts: &mut Parts) -> Result<(), Starved>
    ensures { OnOk result (parts.new ≡ args_rule rule parts.old) }
{
    match rule {
        // PragArg = ( Args )
        ArgsRule::ArgGroup => {
            parts.skip();
            let args = parts.item().args(alloc);
            parts.skip();
            parts.put_item(alloc, ItemPart::Args(args))
        }
        // PragArg = | ArgMore =
        ArgsRule::NoArgs => { parts.put_item(alloc, ItemPart::Args(Chain::new(alloc))) }
        // Args = Arg ArgMore
        ArgsRule::Args => {
            let arg = parts.item().arg();
            let args = parts.item().args(alloc).with_first(arg)?;
            parts.put_item(alloc, ItemPart::Args(args))
        }
        // ArgMore = , Arg ArgMore
        ArgsRule::ArgsAfter => {
            parts.skip();
            let arg = parts.item().arg();
            let args = parts.item().args(alloc).with_first(arg)?;
            parts.put_item(alloc, ItemPart::Args(args))
        }
    }
}

/// Takes the parts of a production from the front, and puts there what the rule makes of them.
pub fn apply_arg(alloc: Global, rule: ArgRule, parts: &mut Parts) -> Result<(), Starved>
    ensures { OnOk result (parts.new ≡ arg_rule rule parts.old) }
{
    match rule {
        // Arg = others => Item
        ArgRule::ArgOthers => {
            let start = parts.place();
            parts.skip();
            let item = parts.item().item(alloc)?;
            parts.put_item(
                alloc,
                ItemPart::Arg(Arg {
                    span: joined(start, item.span),
                    choice: ArgChoice::Others,
                    value: Some(item),
                }),
            )
        }
        // Arg = Cond ArgVal
        ArgRule::ArgItem => {
            let item = parts.item().item(alloc)?;
            let value = parts.item().optional_item();
            parts.put_item(
                alloc,
                ItemPart::Arg(Arg {
                    span: joined(item.span, item_end(&value, item.span)),
                    choice: ArgChoice::Item(item),
                    value,
                }),
            )
        }
        // Arg = Simple ArgMid
        ArgRule::ArgSimple => {
            let first = parts.expression().expr(alloc)?;
            let tail = parts.item().arg_tail(alloc);
            parts.put_item(alloc, ItemPart::Arg(tail.argument(alloc, first)?))
        }
        // ArgMid = .. Simple ArgVal
        ArgRule::ArgUpTo => {
            parts.skip();
            let high = parts.expression().expr(alloc)?;
            let value = parts.item().optional_item();
            parts.put_item(alloc, ItemPart::ArgTail(ArgTail::UpTo(high, value)))
        }
        // ArgMid = RelTail Logic ArgVal
        ArgRule::ArgRest => {
            let relation = parts.expression().relation_tail();
            let more = parts.expression().operations(alloc);
            let value = parts.item().optional_item();
            parts.put_item(
                alloc,
                ItemPart::ArgTail(ArgTail::Rest(relation, more, value)),
            )
        }
    }
}
