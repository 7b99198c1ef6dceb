//! Which formal an argument is for (Ada RM 6.4).

ghost use Rattle.std.specs.Prelude.{◌≡◌, ◌≤◌, length};
ghost use Rattle.reading_scope.specs.Scopes.{scope_of};
ghost use Rattle.syntax_view.specs.View.{arg_of, expr, item_of};
ghost use Rattle.type_base.specs.Scope.{Scope as Context};
ghost use Rattle.typing_rules.specs.Calls.{formal_for, formal_named, is_among, next_formal, still_open};
ghost use Rattle.typing_rules.specs.Reading.{arg, item, read};
ghost use Rattle.typing_rules.specs.Values.{place_of};
ghost use Rattle.prefix_rules.specs.Arguments.{lone_in, named_formal};

use ada_syntax::{Arg, ArgChoice, Expr, ExprNode, Item, ItemForm};
use ada_values::Place;
use reading_scope::Scope;
use type_base::Formal;

/// The first byte of an item, by that of the expression where it is one alone.
#[tactic(auto, using(syntax_view::proofs::Forms::expr_has))]
pub fn argument_start(argument: &Item<Expr>) -> u32
    ensures { (c : Context) → result ≡ (item c (item_of expr argument.now)).from }
{
    match argument.form.get() {
        ItemForm::Plain(x) => x.span.from,
        ItemForm::If(_, _) | ItemForm::Quantified(_, _, _, _) => argument.span.from,
    }
}

/// The place of an item.
pub fn argument_place(scope: &Scope, argument: &Item<Expr>) -> Place
    ensures { result ≡ place_of (scope_of scope.now) (item (scope_of scope.now) (item_of expr argument.now)) }
{
    scope.place(argument_start(argument))
}

/// The first byte of an expression that is an identifier alone.
#[tactic(auto, using(syntax_view::proofs::Forms::expr_has))]
fn lone_identifier(x: &Expr) -> Option<u32>
    ensures { (c : Context) → result ≡ lone_in (read c (expr x.now)) }
{
    match x.node.get() {
        ExprNode::Name(name) => match name.suffixes.as_slice() {
            [] => Some(x.span.from),
            [_, ..] => None,
        },
        _ => None,
    }
}

/// The first byte of an item that is an identifier alone.
fn lone_name(argument: &Item<Expr>) -> Option<u32>
    ensures { (c : Context) → result ≡ lone_in (item c (item_of expr argument.now)) }
{
    match argument.form.get() {
        ItemForm::Plain(x) => lone_identifier(x),
        ItemForm::If(_, _) | ItemForm::Quantified(_, _, _, _) => None,
    }
}

/// The number of the formal of a name.
fn formal_named(mut formals: &[Formal], name: u32) -> Option<u32>
    requires { length formals.now ≤ 4294967295 }
    ensures { result ≡ formal_named formals.entry.now name 0 }
{
    let mut number = 0;
    while let [first, rest @ ..] = formals {
        if first.name == name {
            return Some(number);
        }
        formals = rest;
        number += 1;
    }
    None
}

fn is_among(number: u32, mut given: &[u32]) -> bool
    ensures { result ≡ is_among number given.entry.now }
{
    while let [first, rest @ ..] = given {
        if number == *first {
            return true;
        }
        given = rest;
    }
    false
}

fn still_open(given: &[u32], number: Option<u32>) -> Option<u32>
    ensures { result ≡ still_open given.now number }
{
    match number {
        Some(number) => {
            if is_among(number, given) {
                None
            } else {
                Some(number)
            }
        }
        None => None,
    }
}

fn next_formal(formals: &[Formal], given: &[u32], named: bool) -> Option<u32>
    requires { length formals.now ≤ 4294967295 }
    ensures { result ≡ next_formal formals.now given.now named }
{
    if !named && given.len() < formals.len() {
        Some(given.len() as u32)
    } else {
        None
    }
}

/// The number of the formal of the name that an item is, where that isn't given yet.
fn formal_of_name(
    scope: &Scope,
    formals: &[Formal],
    given: &[u32],
    name: &Item<Expr>,
) -> Option<u32>
    requires { length formals.now ≤ 4294967295 }
    ensures { result ≡ named_formal (scope_of scope.now) formals.now given.now (lone_in (item (scope_of scope.now) (item_of expr name.now))) }
{
    match lone_name(name) {
        Some(at) => still_open(given, formal_named(formals, scope.name(at))),
        None => None,
    }
}

/// The number of the formal that an argument is for, after arguments that give these formals, of which some may be `named`:
/// the next one for an argument without a name, and for one with a name that of the name; None where there is no such, or it
/// is given already.
pub fn formal_for(
    scope: &Scope,
    formals: &[Formal],
    given: &[u32],
    named: bool,
    argument: &Arg<Expr>,
) -> Option<u32>
    requires { length formals.now ≤ 4294967295 }
    ensures { result ≡ formal_for (scope_of scope.now) formals.now given.now named (arg (scope_of scope.now) (arg_of expr argument.now)) }
{
    match &argument.choice {
        ArgChoice::Item(item) => match &argument.value {
            None => next_formal(formals, given, named),
            Some(_) => formal_of_name(scope, formals, given, item),
        },
        ArgChoice::Others | ArgChoice::Range(_, _) => None,
    }
}
