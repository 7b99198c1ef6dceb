//! The events of expressions and names (Ada RM 4).

ghost use Rattle.std.specs.Prelude.{◌≡◌, OnOk};
ghost use Rattle.name_numbers.specs.Numbers.{number_at};
ghost use Rattle.name_uses.specs.Uses.{arg_onto, args_onto, arms_onto, attribute_onto, choice_onto, item_onto, maybe_onto, name_onto, onto, range_onto, selector_onto, sole_onto, suffix_onto, value_onto};
ghost use Rattle.syntax_view.specs.View.{arg_of, args_of, arms_of, attribute_of, choice_of, expr, item_of, maybe_of, name_of, range_of, suffix_of, value_of};

use crate::Starved;
use crate::asked::{before_arrow, have_range, is_selector};
use crate::places::{Brackets, Within, group_in, is_attribute, is_global, manner_of};
use crate::told::{ident, push_left_out, push_opened};
use ada_syntax::{
    Arg, ArgChoice, Arm, Attribute, Expr, ExprNode, Item, ItemForm, Name, Range, Suffix,
};
use ada_text::Span;
use name_library::{Event, Kind, Manner, Scope};
use name_numbers::{NameTable, word_of};
use sqlite_items::Items;

/// Tells of an identifier alone before `=>`.
fn push_sole(
    found: &mut Items<Event>,
    names: &NameTable,
    brackets: Brackets,
    name: Span,
) -> Result<(), Starved>
    ensures { OnOk result (found.new ≡ sole_onto (number_at names.now) brackets found.old name) }
{
    match brackets {
        Brackets::Aggregate => found.push(Event::Name(ident(names, name), Manner::Choice)),
        Brackets::AfterName => Ok(()),
    }
}

/// Tells of the identifier after a point, where identifiers and points alone stand before.
fn push_selector(
    found: &mut Items<Event>,
    names: &NameTable,
    leading: bool,
    name: Span,
) -> Result<(), Starved>
    ensures { OnOk result (found.new ≡ selector_onto (number_at names.now) leading found.old name) }
{
    if leading {
        found.push(Event::Selects(ident(names, name)))
    } else {
        Ok(())
    }
}

#[cycle(walk)]
fn push_maybe(
    found: &mut Items<Event>,
    names: &NameTable,
    within: Within,
    e: &Option<Expr>,
) -> Result<(), Starved>
    ensures { OnOk result (found.new ≡ maybe_onto (number_at names.now) within found.old (maybe_of expr e.now)) }
{
    match e {
        None => Ok(()),
        Some(e) => push_expr(found, names, within, e),
    }
}

/// Tells of a range, or of what names one.
#[cycle(walk)]
pub fn push_range(
    found: &mut Items<Event>,
    names: &NameTable,
    within: Within,
    range: &Range<Expr>,
) -> Result<(), Starved>
    ensures { OnOk result (found.new ≡ range_onto (number_at names.now) within found.old (range_of expr range.now)) }
{
    push_expr(found, names, within, &range.low)?;
    push_maybe(found, names, within, &range.high)
}

#[cycle(walk)]
fn push_arms(
    found: &mut Items<Event>,
    names: &NameTable,
    within: Within,
    arms: &Items<Arm<Expr>>,
) -> Result<(), Starved>
    ensures { OnOk result (found.new ≡ arms_onto (number_at names.now) within found.old (arms_of expr arms.now)) }
{
    for arm in arms.as_slice() {
        push_expr(found, names, within, &arm.condition)?;
        push_expr(found, names, within, &arm.gives)?;
    }
    Ok(())
}

/// Tells of an expression, an if-expression or a quantified expression.
#[cycle(walk)]
pub fn push_item(
    found: &mut Items<Event>,
    names: &NameTable,
    within: Within,
    item: &Item<Expr>,
) -> Result<(), Starved>
    ensures { OnOk result (found.new ≡ item_onto (number_at names.now) within found.old (item_of expr item.now)) }
{
    match item.form.get() {
        ItemForm::Plain(e) => push_expr(found, names, within, e),
        ItemForm::If(arms, otherwise) => {
            push_arms(found, names, within, arms)?;
            push_maybe(found, names, within, otherwise)
        }
        ItemForm::Quantified(_, index, range, predicate) => {
            push_opened(found, Scope::Quantified, Kind::Index, ident(names, *index))?;
            push_range(found, names, within, range)?;
            found.push(Event::DeclarationEnds)?;
            push_expr(found, names, within, predicate)?;
            found.push(Event::Closes)
        }
    }
}

#[cycle(walk)]
fn push_choice(
    found: &mut Items<Event>,
    names: &NameTable,
    within: Within,
    choice: &ArgChoice<Expr>,
) -> Result<(), Starved>
    ensures { OnOk result (found.new ≡ choice_onto (number_at names.now) within found.old (choice_of expr choice.now)) }
{
    match choice {
        ArgChoice::Others => Ok(()),
        ArgChoice::Item(item) => push_item(found, names, within, item),
        ArgChoice::Range(low, high) => {
            push_expr(found, names, within, low)?;
            push_expr(found, names, within, high)
        }
    }
}

#[cycle(walk)]
fn push_value(
    found: &mut Items<Event>,
    names: &NameTable,
    within: Within,
    value: &Option<Item<Expr>>,
) -> Result<(), Starved>
    ensures { OnOk result (found.new ≡ value_onto (number_at names.now) within found.old (value_of expr value.now)) }
{
    match value {
        None => Ok(()),
        Some(item) => push_item(found, names, within, item),
    }
}

#[cycle(walk)]
fn push_arg(
    found: &mut Items<Event>,
    names: &NameTable,
    within: Within,
    brackets: Brackets,
    arg: &Arg<Expr>,
) -> Result<(), Starved>
    ensures { OnOk result (found.new ≡ arg_onto (number_at names.now) within brackets found.old (arg_of expr arg.now)) }
{
    match before_arrow(arg) {
        Some(name) => push_sole(found, names, brackets, name)?,
        None => push_choice(found, names, within, &arg.choice)?,
    }
    push_value(found, names, within, &arg.value)
}

/// Tells of what stands in parentheses.
#[cycle(walk)]
pub fn push_args(
    found: &mut Items<Event>,
    names: &NameTable,
    within: Within,
    brackets: Brackets,
    args: &Items<Arg<Expr>>,
) -> Result<(), Starved>
    ensures { OnOk result (found.new ≡ args_onto (number_at names.now) within brackets found.old (args_of expr args.now)) }
{
    for arg in args.as_slice() {
        push_arg(found, names, within, brackets, arg)?;
    }
    Ok(())
}

#[cycle(walk)]
fn push_attribute(
    found: &mut Items<Event>,
    names: &NameTable,
    within: Within,
    at: u32,
    attribute: &Attribute<Expr>,
) -> Result<(), Starved>
    ensures { OnOk result (found.new ≡ attribute_onto (number_at names.now) within at found.old (attribute_of expr attribute.now)) }
{
    match attribute {
        Attribute::Named(name) => {
            let word = word_of(names.number_at(name.from));
            push_left_out(found, !is_attribute(word), at)
        }
        Attribute::Range => Ok(()),
        Attribute::Qualified(args) => push_args(found, names, within, group_in(within), args),
    }
}

/// Tells of a part of a name that begins at a byte. Where so far identifiers and points alone stand in it, a selector is told; and
/// where an index constraint may stand, a range is no slice.
#[cycle(walk)]
fn push_suffix(
    found: &mut Items<Event>,
    names: &NameTable,
    within: Within,
    constrains: bool,
    at: u32,
    leading: bool,
    suffix: &Suffix<Expr>,
) -> Result<(), Starved>
    ensures { OnOk result (found.new ≡ suffix_onto (number_at names.now) within constrains at leading found.old (suffix_of expr suffix.now)) }
{
    match suffix {
        Suffix::Selected(name) => push_selector(found, names, leading, *name),
        Suffix::Ticked(_, attribute) => push_attribute(found, names, within, at, attribute),
        Suffix::Applied(args) => {
            push_left_out(found, !constrains && have_range(args), at)?;
            push_args(found, names, within, Brackets::AfterName, args)
        }
    }
}

/// Tells of a name, with true where an index constraint may follow it (Ada RM 3.6.1).
#[cycle(walk)]
pub fn push_name(
    found: &mut Items<Event>,
    names: &NameTable,
    within: Within,
    constrains: bool,
    name: &Name<Expr>,
) -> Result<(), Starved>
    ensures { OnOk result (found.new ≡ name_onto (number_at names.now) within constrains found.old (name_of expr name.now)) }
{
    found.push(Event::Name(ident(names, name.first), manner_of(within)))?;
    let at = name.span.from;
    let mut leading = true;
    for suffix in name.suffixes.as_slice() {
        push_suffix(found, names, within, constrains, at, leading, suffix)?;
        leading = leading && is_selector(suffix);
    }
    Ok(())
}

/// Tells of an expression.
#[tactic(auto, using(syntax_view::proofs::Forms::expr_has))]
#[cycle(walk)]
pub fn push_expr(
    found: &mut Items<Event>,
    names: &NameTable,
    within: Within,
    e: &Expr,
) -> Result<(), Starved>
    ensures { OnOk result (found.new ≡ onto (number_at names.now) within found.old (expr e.now)) }
{
    match e.node.get() {
        ExprNode::Number(_) => Ok(()),
        ExprNode::Null => push_left_out(found, !is_global(within), e.span.from),
        ExprNode::Name(name) => push_name(found, names, within, false, name),
        ExprNode::Group(args) => push_args(found, names, within, group_in(within), args),
        ExprNode::Unary(_, _, operand) => push_expr(found, names, within, operand),
        ExprNode::Binary(_, _, left, right) => {
            push_expr(found, names, within, left)?;
            push_expr(found, names, within, right)
        }
        ExprNode::Member(_, _, tested, range) => {
            push_expr(found, names, within, tested)?;
            push_range(found, names, within, range.get())
        }
    }
}
