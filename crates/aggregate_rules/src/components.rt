//! Which components an association gives (Ada RM 4.3.1).

ghost use Rattle.std.specs.Prelude.{◌≡◌, ◌≤◌, IfOk, length};
ghost use Rattle.syntax_view.specs.View.{arg_of, expr, item_of, name_of};
ghost use Rattle.aggregate_rules.specs.Steps.{association_gives, component_named, lone_in};
ghost use Rattle.reading_scope.specs.Scopes.{scope_of};
ghost use Rattle.type_base.specs.Scope.{Scope as Context};
ghost use Rattle.typing_rules.specs.Aggregates.{not_given, one_given, position_open, rest_given};
ghost use Rattle.typing_rules.specs.Calls.{is_among, still_open};
ghost use Rattle.typing_rules.specs.Forms.{is_identifier};
ghost use Rattle.typing_rules.specs.Reading.{item, name_form, read};

use ada_syntax::{Arg, ArgChoice, Expr, ExprNode, Item, ItemForm, Name};
use name_values::place_among;
use reading_scope::Scope;
use sqlite_items::Items;
use std::alloc::Global;
use type_base::{Component, Starved};
use typing_rules::Gives;

/// Whether nothing follows the first identifier of a name.
fn is_lone(name: &Name<Expr>) -> bool
    ensures { (c : Context) → result ≡ is_identifier (name_form c (name_of expr name.now)) }
{
    match name.suffixes.as_slice() {
        [] => true,
        [_, ..] => false,
    }
}

/// The first byte of an expression that is an identifier alone.
#[tactic(auto, using(syntax_view::proofs::Forms::expr_has))]
fn lone_identifier(x: &Expr) -> Option<u32>
    ensures { (c : Context) → result ≡ lone_in (read c (expr x.now)) }
{
    match x.node.get() {
        ExprNode::Name(name) => {
            if is_lone(name) {
                Some(x.span.from)
            } else {
                None
            }
        }
        ExprNode::Number(_)
        | ExprNode::Null
        | ExprNode::Group(_)
        | ExprNode::Unary(_, _, _)
        | ExprNode::Binary(_, _, _, _)
        | ExprNode::Member(_, _, _, _) => None,
    }
}

/// The first byte of a choice that is an identifier alone.
fn lone_choice(choice: &Item<Expr>) -> Option<u32>
    ensures { (c : Context) → result ≡ lone_in (item c (item_of expr choice.now)) }
{
    match choice.form.get() {
        ItemForm::Plain(x) => lone_identifier(x),
        ItemForm::If(_, _) | ItemForm::Quantified(_, _, _, _) => None,
    }
}

fn is_among(number: u32, mut given: &[u32]) -> bool
    ensures { result ≡ is_among number given.entry.now }
{
    while let [first, rest @ ..] = given {
        if number == *first {
            return true;
        }
        given = rest;
    }
    false
}

fn still_open(given: &[u32], number: Option<u32>) -> Option<u32>
    ensures { result ≡ still_open given.now number }
{
    match number {
        Some(number) => {
            if is_among(number, given) {
                None
            } else {
                Some(number)
            }
        }
        None => None,
    }
}

/// The component of the name that a choice is, where it isn't given yet.
fn component_named(
    scope: &Scope,
    components: &[Component],
    given: &[u32],
    choice: &Item<Expr>,
) -> Option<u32>
    requires { length components.now ≤ 4294967295 }
    ensures { result ≡ component_named (scope_of scope.now) components.now given.now (lone_in (item (scope_of scope.now) (item_of expr choice.now))) }
{
    match lone_choice(choice) {
        Some(at) => still_open(given, place_among(components, scope.name(at))),
        None => None,
    }
}

/// The component after those that are given, which all come first.
fn position_open(components: &[Component], given: &[u32]) -> Option<u32>
    requires { length components.now ≤ 4294967295 }
    ensures { result ≡ position_open components.now given.now }
{
    if given.len() < components.len() {
        Some(given.len() as u32)
    } else {
        None
    }
}

fn one_given(alloc: Global, number: Option<u32>) -> Result<Option<Gives>, Starved>
    ensures { IfOk result (λ g. g ≡ one_given number) }
{
    match number {
        Some(number) => {
            let mut numbers = Items::new(alloc);
            numbers.push(number)?;
            Ok(Some(Gives {
                numbers,
                by_others: false,
            }))
        }
        None => Ok(None),
    }
}

/// The numbers of the components that aren't given.
fn not_given(
    alloc: Global,
    mut components: &[Component],
    given: &[u32],
) -> Result<Items<u32>, Starved>
    requires { length components.now ≤ 4294967295 }
    ensures { IfOk result (λ ns. ns ≡ not_given given.now components.entry.now 0) }
{
    let mut numbers = Items::new(alloc);
    let mut number = 0;
    while let [_, rest @ ..] = components {
        if !is_among(number, given) {
            numbers.push(number)?;
        }
        components = rest;
        number += 1;
    }
    Ok(numbers)
}

fn rest_given(last: bool, numbers: Items<u32>) -> Option<Gives>
    ensures { result ≡ rest_given last numbers }
{
    match numbers.as_slice() {
        [] => None,
        [_, ..] => {
            if last {
                Some(Gives {
                    numbers,
                    by_others: true,
                })
            } else {
                None
            }
        }
    }
}

/// What an association of a record gives, after others that gave these components, the newest first, of which some may be
/// `named`: the next component where it is positional, that of its name, or with `others` all that are left, where it is the
/// `last` association. None where it gives nothing, by L16. There are fewer than 2^32 components.
pub fn components_for(
    alloc: Global,
    scope: &Scope,
    components: &[Component],
    given: &[u32],
    named: bool,
    association: &Arg<Expr>,
    last: bool,
) -> Result<Option<Gives>, Starved>
    requires { length components.now ≤ 4294967295 }
    ensures { IfOk result (λ g. g ≡ association_gives (scope_of scope.now) components.now given.now named (arg_of expr association.now) last) }
{
    match &association.choice {
        ArgChoice::Item(item) => match &association.value {
            None => {
                let next = if named {
                    None
                } else {
                    position_open(components, given)
                };
                one_given(alloc, next)
            }
            Some(_) => one_given(alloc, component_named(scope, components, given, item)),
        },
        ArgChoice::Others => match &association.value {
            None => Ok(None),
            Some(_) => match not_given(alloc, components, given) {
                Ok(numbers) => Ok(rest_given(last, numbers)),
                Err(error) => Err(error),
            },
        },
        ArgChoice::Range(_, _) => Ok(None),
    }
}
