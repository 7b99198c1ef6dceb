//! What follows a subtype's name (Ada RM 3.2.2).

ghost use Rattle.std.specs.Prelude.{◌≡◌, None, option_map};
ghost use Rattle.subtype_reader.specs.Constraints.{constraint_as};
ghost use Rattle.statement_typing.specs.Subtypes.{constraint_of, index_of};
ghost use Rattle.syntax_view.specs.Trees as tree;
ghost use Rattle.syntax_view.specs.View.{arg_of, args_of, bounds_of, expr, suffixes_of};

use crate::written_ranges::WrittenRange;
use ada_syntax::{Arg, ArgChoice, Bounds, Expr, ItemForm, Suffix};
use ada_text::Span;

/// What follows a subtype's name.
#[derive(Clone, Copy)]
pub(crate) enum Constraint<'a> {
    Free,
    ToRange(&'a Bounds),
    /// The index of an array, with the span of its first token.
    ToIndex(Span, WrittenRange<'a>),
    /// What no subtype has.
    Other,
}

/// The index that an argument alone in parentheses is.
fn one_index<'a>(arg: &'a Arg<Expr>) -> Constraint<'a>
    ensures { constraint_as result ≡ index_of (tree.args (arg_of expr arg.now) tree.no_args) None }
{
    match &arg.choice {
        ArgChoice::Others => Constraint::Other,
        ArgChoice::Range(low, high) => match &arg.value {
            None => Constraint::ToIndex(arg.span, WrittenRange::Bounds(low, high)),
            Some(_) => Constraint::Other,
        },
        ArgChoice::Item(item) => match item.form.get() {
            ItemForm::Plain(e) => match &arg.value {
                None => Constraint::ToIndex(arg.span, WrittenRange::Named(e)),
                Some(_) => Constraint::Other,
            },
            ItemForm::If(_, _) => Constraint::Other,
            ItemForm::Quantified(_, _, _, _) => Constraint::Other,
        },
    }
}

/// The index that stands in parentheses, where nothing follows.
fn index_of<'a>(args: &'a [Arg<Expr>]) -> Constraint<'a>
    ensures { constraint_as result ≡ index_of (args_of expr args.now) None }
{
    match args {
        [] => Constraint::Other,
        [arg] => one_index(arg),
        [_, _, ..] => Constraint::Other,
    }
}

/// The constraint that suffixes without bounds after them are.
pub(crate) fn suffix_constraint<'a>(suffixes: &'a [Suffix<Expr>]) -> Constraint<'a>
    ensures { constraint_as result ≡ constraint_of (suffixes_of expr suffixes.now) None }
{
    match suffixes {
        [] => Constraint::Free,
        [suffix] => match suffix {
            Suffix::Selected(_) => Constraint::Other,
            Suffix::Ticked(_, _) => Constraint::Other,
            Suffix::Applied(args) => index_of(args.as_slice()),
        },
        [_, _, ..] => Constraint::Other,
    }
}

/// What follows a subtype's name, by the suffixes and the bounds that stand after it.
pub(crate) fn constraint_of<'a>(
    suffixes: &'a [Suffix<Expr>],
    bounds: &'a Option<Bounds>,
) -> Constraint<'a>
    ensures { constraint_as result ≡ constraint_of (suffixes_of expr suffixes.now) (option_map bounds_of bounds.now) }
{
    match bounds {
        None => suffix_constraint(suffixes),
        Some(bounds) => match suffixes {
            [] => Constraint::ToRange(bounds),
            [_, ..] => Constraint::Other,
        },
    }
}
