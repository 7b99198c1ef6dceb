//! What becomes of primaries and names (Ada RM 4.1, 4.4).

ghost use Rattle.std.specs.Prelude.{◌≡◌, OnOk};
ghost use Rattle.ada_tree.specs.Names.{attribute_rule, name_rule, primary_rule};

use crate::rules::{AttributeRule, NameRule, PrimaryRule};
use ada_syntax::{Attribute, ExprNode, Name, Suffix};
use std::alloc::Global;
use tree_parts::{Chain, Edged, Ended, ExpressionPart, Parts, Starved, joined, number_of};

/// Takes the parts of a production from the front, and puts there what the rule makes of them.
pub fn apply_primary(alloc: Global, rule: PrimaryRule, parts: &mut Parts) -> Result<(), Starved>
    ensures { OnOk result (parts.new ≡ primary_rule rule parts.old) }
{
    match rule {
        // Primary = Num
        PrimaryRule::Number => {
            let token = parts.token();
            parts.put_expr(alloc, token.span, ExprNode::Number(number_of(token.kind)))
        }
        // Primary = null
        PrimaryRule::Null => {
            let place = parts.place();
            parts.put_expr(alloc, place, ExprNode::Null)
        }
        // Primary = Name
        PrimaryRule::Primary => {
            let name = parts.expression().name(alloc);
            parts.put_expr(alloc, name.span, ExprNode::Name(name))
        }
        // Primary = ( Args )
        PrimaryRule::Group => {
            let start = parts.place();
            let args = parts.item().args(alloc);
            let end = parts.place();
            parts.put_expr(
                alloc,
                joined(start, end),
                ExprNode::Group(args.into_items()),
            )
        }
    }
}

/// Takes the parts of a production from the front, and puts there what the rule makes of them.
pub fn apply_name(alloc: Global, rule: NameRule, parts: &mut Parts) -> Result<(), Starved>
    ensures { OnOk result (parts.new ≡ name_rule rule parts.old) }
{
    match rule {
        // Name = Id Suffix
        NameRule::Name => {
            let first = parts.place();
            let suffixes = parts.expression().suffixes(alloc);
            parts.put_expression(ExpressionPart::Name(Name {
                span: joined(first, suffixes.edge.unwrap_or(first)),
                first,
                suffixes: suffixes.value.into_items(),
            }))
        }
        // Suffix = . Id Suffix
        NameRule::Selected => {
            parts.skip();
            let name = parts.place();
            let suffixes = parts.expression().suffixes(alloc);
            let edge = Some(suffixes.edge.unwrap_or(name));
            let value = suffixes.value.with_first(Suffix::Selected(name))?;
            parts.put_expression(ExpressionPart::Suffixes(Edged { value, edge }))
        }
        // Suffix = ' Tick Suffix
        NameRule::Ticked => {
            let place = parts.place();
            let attribute = parts.expression().attribute();
            let suffixes = parts.expression().suffixes(alloc);
            let edge = Some(suffixes.edge.unwrap_or(attribute.end));
            let value = suffixes
                .value
                .with_first(Suffix::Ticked(place, attribute.value))?;
            parts.put_expression(ExpressionPart::Suffixes(Edged { value, edge }))
        }
        // Suffix = ( Args ) Suffix
        NameRule::Applied => {
            parts.skip();
            let args = parts.item().args(alloc);
            let end = parts.place();
            let suffixes = parts.expression().suffixes(alloc);
            let edge = Some(suffixes.edge.unwrap_or(end));
            let value = suffixes
                .value
                .with_first(Suffix::Applied(args.into_items()))?;
            parts.put_expression(ExpressionPart::Suffixes(Edged { value, edge }))
        }
        // Suffix =
        NameRule::NoSuffixes => {
            parts.put_expression(ExpressionPart::Suffixes(Edged {
                value: Chain::new(alloc),
                edge: None,
            }))
        }
    }
}

/// Takes the parts of a production from the front, and puts there what the rule makes of them.
pub fn apply_attribute(alloc: Global, rule: AttributeRule, parts: &mut Parts) -> Result<(), Starved>
    ensures { OnOk result (parts.new ≡ attribute_rule rule parts.old) }
{
    match rule {
        // Tick = Id
        AttributeRule::NamedAttribute => {
            let name = parts.place();
            parts.put_expression(ExpressionPart::Attribute(Ended {
                value: Attribute::Named(name),
                end: name,
            }))
        }
        // Tick = range
        AttributeRule::RangeAttribute => {
            let place = parts.place();
            parts.put_expression(ExpressionPart::Attribute(Ended {
                value: Attribute::Range,
                end: place,
            }))
        }
        // Tick = ( Args )
        AttributeRule::Qualified => {
            parts.skip();
            let args = parts.item().args(alloc);
            let end = parts.place();
            parts.put_expression(ExpressionPart::Attribute(Ended {
                value: Attribute::Qualified(args.into_items()),
                end,
            }))
        }
    }
}
