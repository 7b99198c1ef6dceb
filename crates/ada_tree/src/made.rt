//! What a production makes of its parts.

ghost use Rattle.std.specs.Prelude.{◌≡◌, OnOk};
ghost use Rattle.ada_tree.specs.Made.{made, rule_at};

use crate::declaration_rules::{apply_declaration, apply_object, apply_other_declaration};
use crate::expression_rules::{apply_logic, apply_operation, apply_relation};
use crate::item_rules::{apply_arg, apply_args, apply_conditional, apply_item, apply_optional};
use crate::name_rules::{apply_attribute, apply_name, apply_primary};
use crate::rule_table::RULES;
use crate::rules::Rule;
use crate::statement_rules::{
    apply_case, apply_choice, apply_direction, apply_if, apply_loop, apply_statement,
};
use crate::subprogram_rules::{
    apply_aspect, apply_body, apply_mode, apply_param, apply_subprogram,
};
use crate::type_rules::{apply_composite, apply_index, apply_subtype, apply_type_form};
use crate::unit_rules::{apply_clause, apply_context, apply_names, apply_package, apply_unit};
use grammar_table::Starved;
use sqlite_items::at;
use std::alloc::Global;
use tree_parts::Parts;

/// The rule of a production, by its number.
pub fn rule_at(production: u8) -> Rule
    ensures { result ≡ rule_at production }
{
    match at(&RULES, production as usize) {
        Some(rule) => *rule,
        None => Rule::Same,
    }
}

/// Takes the parts of a production from the front, and puts there what the rule makes of them.
pub fn apply(alloc: Global, rule: Rule, parts: &mut Parts) -> Result<(), Starved>
    ensures { OnOk result (parts.new ≡ made rule parts.old) }
{
    match rule {
        Rule::Same => Ok(()),
        Rule::AfterWord => {
            parts.skip();
            Ok(())
        }
        Rule::Context(rule) => apply_context(alloc, rule, parts),
        Rule::Clause(rule) => apply_clause(alloc, rule, parts),
        Rule::Names(rule) => apply_names(alloc, rule, parts),
        Rule::Unit(rule) => apply_unit(alloc, rule, parts),
        Rule::Package(rule) => apply_package(alloc, rule, parts),
        Rule::Declaration(rule) => apply_declaration(alloc, rule, parts),
        Rule::OtherDeclaration(rule) => apply_other_declaration(alloc, rule, parts),
        Rule::Object(rule) => apply_object(alloc, rule, parts),
        Rule::TypeForm(rule) => apply_type_form(alloc, rule, parts),
        Rule::Composite(rule) => apply_composite(alloc, rule, parts),
        Rule::Index(rule) => apply_index(alloc, rule, parts),
        Rule::Subtype(rule) => apply_subtype(alloc, rule, parts),
        Rule::Subprogram(rule) => apply_subprogram(alloc, rule, parts),
        Rule::Body(rule) => apply_body(alloc, rule, parts),
        Rule::Param(rule) => apply_param(alloc, rule, parts),
        Rule::Mode(rule) => apply_mode(alloc, rule, parts),
        Rule::Aspect(rule) => apply_aspect(alloc, rule, parts),
        Rule::Statement(rule) => apply_statement(alloc, rule, parts),
        Rule::If(rule) => apply_if(alloc, rule, parts),
        Rule::Case(rule) => apply_case(alloc, rule, parts),
        Rule::Choice(rule) => apply_choice(alloc, rule, parts),
        Rule::Loop(rule) => apply_loop(alloc, rule, parts),
        Rule::Direction(rule) => apply_direction(alloc, rule, parts),
        Rule::Optional(rule) => apply_optional(alloc, rule, parts),
        Rule::Item(rule) => apply_item(alloc, rule, parts),
        Rule::Conditional(rule) => apply_conditional(alloc, rule, parts),
        Rule::Args(rule) => apply_args(alloc, rule, parts),
        Rule::Arg(rule) => apply_arg(alloc, rule, parts),
        Rule::Logic(rule) => apply_logic(alloc, rule, parts),
        Rule::Operation(rule) => apply_operation(alloc, rule, parts),
        Rule::Relation(rule) => apply_relation(alloc, rule, parts),
        Rule::Primary(rule) => apply_primary(alloc, rule, parts),
        Rule::Name(rule) => apply_name(alloc, rule, parts),
        Rule::Attribute(rule) => apply_attribute(alloc, rule, parts),
    }
}
