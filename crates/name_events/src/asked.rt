//! What a walk asks of pragmas, aspects and profiles.

ghost use Rattle.std.specs.Prelude.{◌≡◌, option_map};
ghost use Rattle.name_numbers.specs.Numbers.{number_at};
ghost use Rattle.name_events.specs.Asked.{are_selectors, given_alone, given_arg, given_args, given_value, is_category, is_heading, names_unit, switches_on};
ghost use Rattle.syntax_view.specs.View.{arg_of, args_of, expr, item_of, suffixes_of};

use crate::words::{PragmaKind, Region, is_on, is_private};
use ada_syntax::{Arg, Expr, Item, Suffix};
use ada_text::Span;
use name_numbers::{NameTable, word_of};
use name_uses::{is_selector, sole_choice, sole_item};
use sqlite_items::Items;

/// What is given to a pragma in parentheses, or to an aspect after `=>`.
#[derive(Clone, Copy)]
pub(crate) enum Given {
    Nothing,
    /// An identifier alone.
    Identifier(Span),
    Other,
}

/// Whether identifiers and points alone follow a name's first identifier.
pub(crate) fn are_selectors(suffixes: &Items<Suffix<Expr>>) -> bool
    ensures { result ≡ are_selectors (suffixes_of expr suffixes.now) }
{
    for suffix in suffixes.as_slice() {
        if !is_selector(suffix) {
            return false;
        }
    }
    true
}

fn given_alone(sole: Option<Span>) -> Given
    ensures { result ≡ given_alone sole }
{
    match sole {
        Some(span) => Given::Identifier(span),
        None => Given::Other,
    }
}

fn given_arg(arg: &Arg<Expr>) -> Given
    ensures { result ≡ given_arg (arg_of expr arg.now) }
{
    match arg.value {
        None => given_alone(sole_choice(&arg.choice)),
        Some(_) => Given::Other,
    }
}

pub(crate) fn given_args(args: &Items<Arg<Expr>>) -> Given
    ensures { result ≡ given_args (args_of expr args.now) }
{
    match args.as_slice() {
        [] => Given::Nothing,
        [arg] => given_arg(arg),
        [_, _, ..] => Given::Other,
    }
}

pub(crate) fn given_value(value: &Option<Item<Expr>>) -> Given
    ensures { result ≡ given_value (option_map (item_of expr) value.now) }
{
    match value {
        None => Given::Nothing,
        Some(item) => given_alone(sole_item(item)),
    }
}

/// Whether nothing or `On` is given.
pub(crate) fn switches_on(names: &NameTable, given: Given) -> bool
    ensures { result ≡ switches_on (number_at names.now) given }
{
    match given {
        Given::Nothing => true,
        Given::Identifier(span) => is_on(word_of(names.number_at(span.from))),
        Given::Other => false,
    }
}

/// Whether nothing or the name with the number is given.
fn names_unit(names: &NameTable, number: u32, given: Given) -> bool
    ensures { result ≡ names_unit (number_at names.now) number given }
{
    match given {
        Given::Nothing => true,
        Given::Identifier(span) => names.number_at(span.from) == number,
        Given::Other => false,
    }
}

/// Whether `Pure` or `Preelaborate` of a package is meant (Ada RM 10.2.1).
fn is_category(names: &NameTable, region: Region, given: Given) -> bool
    ensures { result ≡ is_category (number_at names.now) region given }
{
    match region {
        Region::Visible(number) => names_unit(names, number, given),
        Region::Private | Region::Body | Region::Subprogram => false,
    }
}

/// Whether a pragma may stand before the first declaration of a region: `SPARK_Mode` of a package or a subprogram's body; `Pure`
/// and `Preelaborate` of a package (Ada RM 10.2.1; SPARK RM 1.4).
pub(crate) fn is_heading(names: &NameTable, region: Region, kind: PragmaKind, given: Given) -> bool
    ensures { result ≡ is_heading (number_at names.now) region kind given }
{
    match kind {
        PragmaKind::Mode => !is_private(region) && switches_on(names, given),
        PragmaKind::Category => is_category(names, region, given),
        PragmaKind::Check | PragmaKind::Other => false,
    }
}
