//! The walk over an expression. `place` is where the whole of a name, or of an expression of another form, begins.

ghost use Rattle.std.specs.Prelude.{◌≡◌, ℕ, ◌≤◌, false, [], ◌∷◌, ◌++◌, Some, IfOk, length};
ghost use Rattle.front_codes.specs.declared.codes.Code.TheVariants as code;
ghost use Rattle.reading_scope.specs.Scopes.{scope_of};
ghost use Rattle.syntax_view.specs.View.{arg_of, args_of, arms_of, choice_of, expr, item_of, maybe_of, name_of, range_of, suffix_of};
ghost use Rattle.type_base.specs.declared.seen.Want.TheVariants as want';
ghost use Rattle.typing_rules.specs.declared.aggregates.Manner.TheVariants as manner;
ghost use Rattle.typing_rules.specs.declared.prefix.Found.TheVariants as found';
ghost use Rattle.typing_rules.specs.declared.prefix.Prefix.TheVariants as prefix';
ghost use Rattle.typing_rules.specs.Aggregates as aggregates;
ghost use Rattle.typing_rules.specs.Calls as calls;
ghost use Rattle.typing_rules.specs.Conditions as conditions;
ghost use Rattle.typing_rules.specs.Fits as fits;
ghost use Rattle.typing_rules.specs.Forms as forms;
ghost use Rattle.type_base.specs.Lookups.{routine_at};
ghost use Rattle.typing_rules.specs.Lookups.{array_at, components_at, with_index};
ghost use Rattle.typing_rules.specs.Names as names;
ghost use Rattle.typing_rules.specs.Ranges as ranges;
ghost use Rattle.typing_rules.specs.Reading as reading;
ghost use Rattle.typing_rules.specs.Values as values;
ghost use Rattle.condition_rules.specs.Ifs as ifs;
ghost use Rattle.operand_rules.specs.Operands.{read_as, read_maybe};
ghost use Rattle.expression_reader.specs.Sorts.{sort_read};

use crate::Starved;
use crate::parts::also_given;
use crate::parts::bounds_chosen;
use crate::parts::high_place;
use crate::parts::in_front;
use crate::parts::is_indexed;
use crate::parts::left_want;
use crate::parts::member_read;
use crate::parts::not_qualified;
use crate::parts::qualified_value;
use crate::parts::right_want;
use crate::parts::with_one_index;
use crate::sorts::ItemStep;
use crate::sorts::ReadSort;
use crate::sorts::item_step;
use ada_syntax::Arg;
use ada_syntax::ArgChoice;
use ada_syntax::Arm;
use ada_syntax::Attribute;
use ada_syntax::Expr as Tree;
use ada_syntax::ExprNode as TreeNode;
use ada_syntax::Item;
use ada_syntax::ItemForm;
use ada_syntax::Name;
use ada_syntax::Range;
use ada_syntax::Suffix;
use ada_values::Place;
use aggregate_rules::array_made;
use aggregate_rules::components_for;
use aggregate_rules::first_given;
use aggregate_rules::items_covered;
use aggregate_rules::record_ended;
use aggregate_rules::record_made;
use attribute_rules::attributed;
use attribute_rules::mapped_want;
use attribute_rules::range_of;
use condition_rules::ReadArm;
use condition_rules::ReadBranch;
use condition_rules::branch_want;
use condition_rules::condition;
use condition_rules::if_read;
use condition_rules::index_subtype;
use condition_rules::quantified_by;
use expression_kinds::branches_kind;
use expression_kinds::kind;
use expression_kinds::range_kind;
use expression_rules::Places;
use expression_rules::family_of;
use expression_rules::joined;
use expression_rules::moved;
use expression_rules::unary_of;
use front_codes::Code;
use front_codes::Refusal;
use name_values::added;
use name_values::call_value;
use name_values::components_at;
use name_values::entity_of;
use name_values::entity_prefix;
use name_values::formals_of;
use name_values::spoiled;
use name_values::type_of;
use name_values::value_of;
use operand_rules::ReadOperand;
use operand_rules::actual_want;
use operand_rules::argument_read;
use operand_rules::beside_read;
use operand_rules::conversion_read;
use operand_rules::expression_place;
use operand_rules::index_read;
use operand_rules::mapped_read;
use operand_rules::value_for_read;
use operand_rules::value_read;
use prefix_rules::ArrayForm;
use prefix_rules::argument_place;
use prefix_rules::array_item;
use prefix_rules::formal_for;
use prefix_rules::item_of;
use prefix_rules::selection;
use range_rules::choice_by;
use range_rules::lone_reach;
use range_rules::range_choice;
use range_rules::reach_in;
use range_rules::two_reach;
use range_rules::value_at;
use range_rules::want_or;
use range_rules::weaker;
use reading_scope::Scope;
use sqlite_items::Items;
use std::alloc::Global;
use type_base::BOOLEAN;
use type_base::Component;
use type_base::Demand;
use type_base::Form;
use type_base::Formal;
use type_base::INTEGER_BASE;
use type_base::Seen;
use type_base::Want;
use type_base::operand;
use type_base::refused;
use typed_units::Argument;
use typed_units::Association;
use typed_units::Bounds;
use typed_units::Expr;
use typed_units::Indexed;
use typing_rules::ArrayItems;
use typing_rules::Between;
use typing_rules::Found;
use typing_rules::Gathered;
use typing_rules::Gives;
use typing_rules::Manner;
use typing_rules::Part;
use typing_rules::Prefix;
use typing_rules::Reach;

// ---- operands

/// What an expression is in a context. `Err` where memory was refused.
#[tactic(auto, using(syntax_view::proofs::Forms::expr_has, crate::proofs::Walked::left_by_kind, crate::proofs::Walked::right_by_kind))]
#[cycle(walk)]
pub fn prefix(alloc: Global, scope: &Scope, want: Want, e: &Tree) -> Result<Prefix, Starved>
    ensures { IfOk result (λ f. f ≡ (reading.read (scope_of scope.now) (expr e.now)).prefix want) }
{
    let place = scope.place(e.span.from);
    match e.node.get() {
        TreeNode::Number(number) => Ok(Prefix::Value(Seen::Number(*number))),
        TreeNode::Null => Ok(Prefix::Value(refused(Code::LeftOut, place))),
        TreeNode::Name(name) => name_prefix(alloc, scope, want, place, name),
        TreeNode::Group(args) => group_prefix(alloc, scope, want, place, args),
        TreeNode::Unary(_, operator, inner) => {
            let seen = seen(alloc, scope, weaker(scope.world(), want), inner)?;
            let at = expression_place(scope, inner);
            let seen = unary_of(alloc, scope.world(), place, at, *operator, seen)?;
            Ok(Prefix::Value(seen))
        }
        TreeNode::Binary(sign, operator, left, right) => {
            let family = family_of(*operator);
            let first = left_want(scope, family, want, kind(scope, right));
            let first = seen(alloc, scope, first, left)?;
            let last = right_want(scope, family, want, kind(scope, left));
            let last = match seen(alloc, scope, last, right) {
                Ok(last) => last,
                Err(error) => {
                    drop(first);
                    return Err(error);
                }
            };
            let places = Places {
                whole: place,
                operator: scope.place(sign.from),
                left: expression_place(scope, left),
                right: expression_place(scope, right),
            };
            let seen = joined(alloc, scope.world(), want, places, family, first, last)?;
            Ok(Prefix::Value(seen))
        }
        TreeNode::Member(_, negated, inner, range) => {
            let at = expression_place(scope, inner);
            let wanted = want_or(Want::Free, range_kind(scope, range.get()));
            let tested = seen(alloc, scope, wanted, inner)?;
            let tested = operand(scope.world(), Demand::Ordered, Code::L7, at, tested);
            let wanted = want_or(Want::Free, kind(scope, inner));
            let reach = match reach_of(alloc, scope, Code::L7, wanted, range.get()) {
                Ok(reach) => reach,
                Err(error) => {
                    drop(tested);
                    return Err(error);
                }
            };
            let is = !*negated;
            let seen = member_read(alloc, scope, place, is, at, range.get(), tested, reach)?;
            Ok(Prefix::Value(seen))
        }
    }
}

/// What is seen of an expression in a context. `Err` where memory was refused.
#[cycle(walk)]
pub fn seen(alloc: Global, scope: &Scope, want: Want, e: &Tree) -> Result<Seen, Starved>
    ensures { IfOk result (λ s. s ≡ reading.seen (scope_of scope.now) want (expr e.now)) }
{
    let place = expression_place(scope, e);
    let prefix = prefix(alloc, scope, want, e)?;
    value_of(alloc, scope, place, prefix)
}

/// What an item is in a context. `Err` where memory was refused.
#[tactic(auto, using(condition_rules::proofs::Read::if_seen_read))]
#[cycle(walk)]
pub fn item_prefix(
    alloc: Global,
    scope: &Scope,
    want: Want,
    item: &Item<Tree>,
) -> Result<Prefix, Starved>
    ensures { IfOk result (λ f. f ≡ (reading.item (scope_of scope.now) (item_of expr item.now)).prefix want) }
{
    let place = scope.place(item.span.from);
    match item.form.get() {
        ItemForm::Plain(e) => prefix(alloc, scope, want, e),
        ItemForm::If(arms, otherwise) => {
            let want = branch_want(want, branches_kind(scope, arms, otherwise));
            let arms = read_arms(alloc, scope, want, arms)?;
            let otherwise = match read_else(alloc, scope, want, otherwise) {
                Ok(otherwise) => otherwise,
                Err(error) => {
                    drop(arms);
                    return Err(error);
                }
            };
            let seen = if_read(alloc, scope, place, want, arms, otherwise)?;
            Ok(Prefix::Value(seen))
        }
        ItemForm::Quantified(quantifier, name, range, predicate) => {
            let range = range_found(alloc, scope, Code::L23, range)?;
            let predicate = match predicate_found(alloc, scope, name.from, &range, predicate) {
                Ok(predicate) => predicate,
                Err(error) => {
                    drop(range);
                    return Err(error);
                }
            };
            let number = scope.number(name.from);
            let seen = quantified_by(alloc, scope, place, *quantifier, number, range, predicate)?;
            Ok(Prefix::Value(seen))
        }
    }
}

#[cycle(walk)]
fn read_item(
    alloc: Global,
    scope: &Scope,
    want: Want,
    item: &Item<Tree>,
) -> Result<ReadOperand, Starved>
    ensures { IfOk result (λ r. r ≡ read_as (scope_of scope.now) want (reading.item (scope_of scope.now) (item_of expr item.now))) }
{
    let place = argument_place(scope, item);
    let prefix = item_prefix(alloc, scope, want, item)?;
    Ok(ReadOperand { place, prefix })
}

#[cycle(walk)]
fn some_item(
    alloc: Global,
    scope: &Scope,
    want: Want,
    item: &Item<Tree>,
) -> Result<Option<ReadOperand>, Starved>
    ensures { IfOk result (λ r. r ≡ Some (read_as (scope_of scope.now) want (reading.item (scope_of scope.now) (item_of expr item.now)))) }
{
    let operand = read_item(alloc, scope, want, item)?;
    Ok(Some(operand))
}

/// The operand that an argument alone in parentheses is.
#[cycle(walk)]
fn read_lone(
    alloc: Global,
    scope: &Scope,
    want: Want,
    arg: &Arg<Tree>,
) -> Result<Option<ReadOperand>, Starved>
    ensures { IfOk result (λ r. r ≡ read_maybe (scope_of scope.now) want (names.only_operand (reading.arg (scope_of scope.now) (arg_of expr arg.now) ∷ []))) }
{
    match &arg.choice {
        ArgChoice::Item(item) => match &arg.value {
            None => some_item(alloc, scope, want, item),
            Some(_) => Ok(None),
        },
        ArgChoice::Others => Ok(None),
        ArgChoice::Range(_, _) => Ok(None),
    }
}

/// The operand that stands alone in parentheses.
#[cycle(walk)]
fn read_only(
    alloc: Global,
    scope: &Scope,
    want: Want,
    args: &Items<Arg<Tree>>,
) -> Result<Option<ReadOperand>, Starved>
    ensures { IfOk result (λ r. r ≡ read_maybe (scope_of scope.now) want (names.only_operand (reading.args (scope_of scope.now) (args_of expr args.now)))) }
{
    match args.as_slice() {
        [] => Ok(None),
        [arg] => read_lone(alloc, scope, want, arg),
        [_, _, ..] => Ok(None),
    }
}

/// The operand that an argument gives: what stands after its `=>`, or it is one alone.
#[cycle(walk)]
fn read_given(
    alloc: Global,
    scope: &Scope,
    want: Want,
    arg: &Arg<Tree>,
) -> Result<Option<ReadOperand>, Starved>
    ensures { IfOk result (λ r. r ≡ read_maybe (scope_of scope.now) want (calls.operand_of (reading.arg (scope_of scope.now) (arg_of expr arg.now)))) }
{
    match &arg.value {
        Some(item) => some_item(alloc, scope, want, item),
        None => match &arg.choice {
            ArgChoice::Item(item) => some_item(alloc, scope, want, item),
            ArgChoice::Others => Ok(None),
            ArgChoice::Range(_, _) => Ok(None),
        },
    }
}

// ---- names

#[cycle(walk)]
fn name_prefix(
    alloc: Global,
    scope: &Scope,
    want: Want,
    place: Place,
    name: &Name<Tree>,
) -> Result<Prefix, Starved>
    ensures { IfOk result (λ f. f ≡ forms.form_prefix (scope_of scope.now) place (reading.name_form (scope_of scope.now) (name_of expr name.now)) want) }
{
    let mut prefix = entity_prefix(alloc, scope, place, entity_of(scope, name.first.from))?;
    for suffix in name.suffixes.as_slice() {
        prefix = suffix_prefix(alloc, scope, want, place, prefix, suffix)?;
    }
    Ok(prefix)
}

#[cycle(walk)]
fn suffix_prefix(
    alloc: Global,
    scope: &Scope,
    want: Want,
    place: Place,
    prefix: Prefix,
    suffix: &Suffix<Tree>,
) -> Result<Prefix, Starved>
    ensures { IfOk result (λ f. f ≡ forms.suffix_prefix (scope_of scope.now) want place prefix (reading.suffix (scope_of scope.now) (suffix_of expr suffix.now))) }
{
    match suffix {
        Suffix::Selected(name) => selection(alloc, scope, place, prefix, name.from),
        Suffix::Ticked(tick, Attribute::Named(name)) => {
            attributed(alloc, scope, want, place, prefix, tick.from, name.from)
        }
        Suffix::Ticked(_, Attribute::Range) => range_of(alloc, scope, place, prefix),
        Suffix::Ticked(tick, Attribute::Qualified(args)) => {
            qualification(alloc, scope, place, prefix, scope.place(tick.from), args)
        }
        Suffix::Applied(args) => application(alloc, scope, place, prefix, args),
    }
}

/// A conversion, a call, an index or the argument of an attribute.
#[tactic(auto, using(operand_rules::proofs::Read::conversion_of_read, operand_rules::proofs::Read::mapped_of_read))]
#[cycle(walk)]
fn application(
    alloc: Global,
    scope: &Scope,
    place: Place,
    prefix: Prefix,
    args: &Items<Arg<Tree>>,
) -> Result<Prefix, Starved>
    ensures { IfOk result (λ f. f ≡ forms.application (scope_of scope.now) place prefix (reading.args (scope_of scope.now) (args_of expr args.now))) }
{
    match prefix {
        Prefix::Subtype(subtype) => {
            let operand = read_only(alloc, scope, Want::Free, args)?;
            conversion_read(alloc, scope, place, subtype, operand)
        }
        Prefix::Routine(number) => routine_call(alloc, scope, place, number, args),
        Prefix::Mapping(mapping, tick, subtype) => {
            let want = mapped_want(scope, mapping, subtype);
            let operand = read_only(alloc, scope, want, args)?;
            mapped_read(alloc, scope, place, mapping, tick, subtype, operand)
        }
        Prefix::Part(part) => part_item(alloc, scope, place, part, args),
        Prefix::Package => other_item(alloc, scope, place, Prefix::Package, args),
        Prefix::Called(number, given) => {
            other_item(alloc, scope, place, Prefix::Called(number, given), args)
        }
        Prefix::Range(range) => other_item(alloc, scope, place, Prefix::Range(range), args),
        Prefix::Constant(ty, x) => other_item(alloc, scope, place, Prefix::Constant(ty, x), args),
        Prefix::Value(seen) => other_item(alloc, scope, place, Prefix::Value(seen), args),
    }
}

#[cycle(walk)]
fn other_item(
    alloc: Global,
    scope: &Scope,
    place: Place,
    prefix: Prefix,
    args: &Items<Arg<Tree>>,
) -> Result<Prefix, Starved>
    ensures { IfOk result (λ f. f ≡ prefix'.Value (names.value_item (scope_of scope.now) place (reading.args (scope_of scope.now) (args_of expr args.now)) (values.value_of (scope_of scope.now) place prefix))) }
{
    let value = value_of(alloc, scope, place, prefix)?;
    let seen = value_item(alloc, scope, place, args, value)?;
    Ok(Prefix::Value(seen))
}

/// An item of an object or of a part of one.
#[cycle(walk)]
fn part_item(
    alloc: Global,
    scope: &Scope,
    place: Place,
    part: Part,
    args: &Items<Arg<Tree>>,
) -> Result<Prefix, Starved>
    ensures { IfOk result (λ f. f ≡ names.part_item (scope_of scope.now) place part (reading.args (scope_of scope.now) (args_of expr args.now)) (array_at (scope_of scope.now).world part.subtype)) }
{
    match scope.world().form(part.subtype) {
        Some(
            Form::Array {
                index,
                bounds,
                item,
            },
        ) => {
            let array = ArrayForm {
                index,
                bounds,
                item,
            };
            let found = match index_of(alloc, scope, place, array, args) {
                Ok(found) => found,
                Err(error) => {
                    drop(part);
                    return Err(error);
                }
            };
            item_of(part, array, found)
        }
        _ => {
            drop(part);
            Ok(Prefix::Value(refused(Code::L14, place)))
        }
    }
}

/// What stands in parentheses after a value: an index. After what is unknown, only what is refused in it is told.
#[cycle(walk)]
fn value_item(
    alloc: Global,
    scope: &Scope,
    place: Place,
    args: &Items<Arg<Tree>>,
    value: Seen,
) -> Result<Seen, Starved>
    ensures { IfOk result (λ s. s ≡ names.value_item (scope_of scope.now) place (reading.args (scope_of scope.now) (args_of expr args.now)) value) }
{
    match value {
        Seen::Refused(refusal) => Ok(Seen::Refused(refusal)),
        Seen::Unknown => after_unknown(alloc, scope, args),
        Seen::Number(_) => Ok(refused(Code::L14, place)),
        Seen::Typed(_, x) => match scope.world().form(x.subtype) {
            Some(
                Form::Array {
                    index,
                    bounds,
                    item,
                },
            ) => {
                let array = ArrayForm {
                    index,
                    bounds,
                    item,
                };
                let found = match index_of(alloc, scope, place, array, args) {
                    Ok(found) => found,
                    Err(error) => {
                        drop(x);
                        return Err(error);
                    }
                };
                array_item(alloc, scope, place, x, item, found)
            }
            _ => {
                drop(x);
                Ok(refused(Code::L14, place))
            }
        },
    }
}

/// One argument as an index of an array.
#[tactic(auto, using(operand_rules::proofs::Read::index_by_read))]
#[cycle(walk)]
fn one_index(
    alloc: Global,
    scope: &Scope,
    array: ArrayForm,
    arg: &Arg<Tree>,
) -> Result<Found<Indexed<Expr>>, Starved>
    ensures { IfOk result (λ i. i ≡ names.index_by (scope_of scope.now) (record { index = array.index; bounds = array.bounds; item = array.item }) ((scope_of scope.now).place arg.now.span.from) (names.only_operand (reading.arg (scope_of scope.now) (arg_of expr arg.now) ∷ []))) }
{
    let operand = read_lone(alloc, scope, Want::Subtype(array.index), arg)?;
    let place = scope.place(arg.span.from);
    index_read(alloc, scope, array.index, array.bounds, place, operand)
}

/// The index of an array: one argument.
#[cycle(walk)]
fn index_of(
    alloc: Global,
    scope: &Scope,
    place: Place,
    array: ArrayForm,
    args: &Items<Arg<Tree>>,
) -> Result<Found<Indexed<Expr>>, Starved>
    ensures { IfOk result (λ i. i ≡ names.index_of (scope_of scope.now) place (record { index = array.index; bounds = array.bounds; item = array.item }) (reading.args (scope_of scope.now) (args_of expr args.now))) }
{
    match args.as_slice() {
        [] => Ok(Found::Refused(Refusal {
            code: Code::L14,
            place,
        })),
        [arg] => one_index(alloc, scope, array, arg),
        [arg, other, ..] => {
            let found = one_index(alloc, scope, array, arg)?;
            let refusal = Refusal {
                code: Code::L14,
                place: scope.place(other.span.from),
            };
            Ok(spoiled(found, refusal))
        }
    }
}

#[tactic(auto, using(operand_rules::proofs::Read::operand_beside_read))]
#[cycle(walk)]
fn argument_beside(
    alloc: Global,
    scope: &Scope,
    arg: &Arg<Tree>,
    seen: Seen,
) -> Result<Seen, Starved>
    ensures { IfOk result (λ s. s ≡ names.operand_beside (scope_of scope.now) (calls.operand_of (reading.arg (scope_of scope.now) (arg_of expr arg.now))) seen) }
{
    match read_given(alloc, scope, Want::Unknown, arg) {
        Ok(operand) => beside_read(alloc, scope, operand, seen),
        Err(error) => {
            drop(seen);
            Err(error)
        }
    }
}

/// What is refused in what stands in parentheses after a name of which nothing is known.
#[cycle(walk)]
fn after_unknown(alloc: Global, scope: &Scope, args: &Items<Arg<Tree>>) -> Result<Seen, Starved>
    ensures { IfOk result (λ s. s ≡ names.after_unknown (scope_of scope.now) (reading.args (scope_of scope.now) (args_of expr args.now))) }
{
    let all = args.as_slice();
    let mut left = all.len();
    let mut seen = Seen::Unknown;
    while left > 0 {
        left -= 1;
        seen = argument_beside(alloc, scope, &all[left], seen)?;
    }
    Ok(seen)
}

// ---- calls

#[tactic(auto, using(operand_rules::proofs::Read::argument_by_read))]
#[cycle(walk)]
fn argument_for(
    alloc: Global,
    scope: &Scope,
    formals: &[Formal],
    number: u32,
    arg: &Arg<Tree>,
) -> Result<Found<Argument<Expr>>, Starved>
    ensures { IfOk result (λ a. a ≡ calls.argument_for (scope_of scope.now) formals.now number (reading.arg (scope_of scope.now) (arg_of expr arg.now))) }
{
    match formals.get(number as usize) {
        Some(formal) => {
            let want = actual_want(formal.mode, formal.subtype);
            let operand = read_given(alloc, scope, want, arg)?;
            argument_read(alloc, scope, number, *formal, operand)
        }
        None => Ok(Found::Unknown),
    }
}

/// The arguments of a call.
#[cycle(walk)]
fn arguments(
    alloc: Global,
    scope: &Scope,
    place: Place,
    formals: &[Formal],
    args: &Items<Arg<Tree>>,
) -> Result<Found<Items<Argument<Expr>>>, Starved>
    requires { length formals.now ≤ 4294967295 }
    ensures { IfOk result (λ as'. as' ≡ calls.arguments (scope_of scope.now) place formals.now [] false (found'.Is []) (reading.args (scope_of scope.now) (args_of expr args.now))) }
{
    let mut given: Items<u32> = Items::new(alloc);
    let mut named = false;
    let mut done = Found::Is(Items::new(alloc));
    for arg in args.as_slice() {
        let Some(number) = formal_for(scope, formals, given.as_slice(), named, arg) else {
            let refusal = Refusal {
                code: Code::L10,
                place: scope.place(arg.span.from),
            };
            return Ok(spoiled(done, refusal));
        };
        done = with_argument(alloc, scope, formals, number, arg, done)?;
        given = in_front(alloc, number, given)?;
        named = named || arg.value.is_some();
    }
    if given.len() == formals.len() {
        Ok(done)
    } else {
        let refusal = Refusal {
            code: Code::L10,
            place,
        };
        Ok(spoiled(done, refusal))
    }
}

#[cycle(walk)]
fn with_argument(
    alloc: Global,
    scope: &Scope,
    formals: &[Formal],
    number: u32,
    arg: &Arg<Tree>,
    done: Found<Items<Argument<Expr>>>,
) -> Result<Found<Items<Argument<Expr>>>, Starved>
    ensures { IfOk result (λ as'. as' ≡ calls.added done (calls.argument_for (scope_of scope.now) formals.now number (reading.arg (scope_of scope.now) (arg_of expr arg.now)))) }
{
    match argument_for(alloc, scope, formals, number, arg) {
        Ok(found) => added(done, found),
        Err(error) => {
            drop(done);
            Err(error)
        }
    }
}

#[tactic(auto, using(crate::proofs::Walked::call_indexed, crate::proofs::Walked::call_given))]
#[cycle(walk)]
fn function_call(
    alloc: Global,
    scope: &Scope,
    place: Place,
    number: u32,
    subtype: u32,
    formals: &[Formal],
    args: &Items<Arg<Tree>>,
) -> Result<Prefix, Starved>
    requires { length formals.now ≤ 4294967295 }
    ensures { IfOk result (λ f. f ≡ names.function_call (scope_of scope.now) place number subtype (reading.args (scope_of scope.now) (args_of expr args.now)) formals.now (array_at (scope_of scope.now).world subtype)) }
{
    if is_indexed(scope.world(), formals, subtype) {
        let none = Found::Is(Items::new(alloc));
        let value = call_value(alloc, scope, place, number, Some(subtype), none)?;
        let seen = value_item(alloc, scope, place, args, value)?;
        Ok(Prefix::Value(seen))
    } else {
        let given = arguments(alloc, scope, place, formals, args)?;
        let seen = call_value(alloc, scope, place, number, Some(subtype), given)?;
        Ok(Prefix::Value(seen))
    }
}

#[cycle(walk)]
fn routine_call(
    alloc: Global,
    scope: &Scope,
    place: Place,
    number: u32,
    args: &Items<Arg<Tree>>,
) -> Result<Prefix, Starved>
    ensures { IfOk result (λ f. f ≡ names.routine_call (scope_of scope.now) place number (reading.args (scope_of scope.now) (args_of expr args.now)) (routine_at (scope_of scope.now).world number)) }
{
    match scope.world().routine(number) {
        Some(routine) => {
            let formals = formals_of(scope.world(), routine);
            match routine.result {
                Some(subtype) => {
                    function_call(alloc, scope, place, number, subtype, formals, args)
                }
                None => {
                    let given = arguments(alloc, scope, place, formals, args)?;
                    Ok(Prefix::Called(number, given))
                }
            }
        }
        None => {
            let seen = after_unknown(alloc, scope, args)?;
            Ok(Prefix::Value(seen))
        }
    }
}

// ---- parentheses, aggregates and qualified expressions

#[tactic(auto, using(crate::proofs::Walked::grouped_some, crate::proofs::Walked::grouped_none))]
#[cycle(walk)]
fn group_prefix(
    alloc: Global,
    scope: &Scope,
    want: Want,
    place: Place,
    args: &Items<Arg<Tree>>,
) -> Result<Prefix, Starved>
    ensures { IfOk result (λ f. f ≡ prefix'.Value (aggregates.group_seen (scope_of scope.now) place want (reading.args (scope_of scope.now) (args_of expr args.now)))) }
{
    match read_only(alloc, scope, want, args)? {
        Some(operand) => {
            let seen = value_read(alloc, scope, operand)?;
            Ok(Prefix::Value(moved(place, seen)))
        }
        None => {
            let seen = aggregate(alloc, scope, place, want, args)?;
            Ok(Prefix::Value(seen))
        }
    }
}

/// An aggregate in a context.
#[cycle(walk)]
fn aggregate(
    alloc: Global,
    scope: &Scope,
    place: Place,
    want: Want,
    args: &Items<Arg<Tree>>,
) -> Result<Seen, Starved>
    ensures { IfOk result (λ s. s ≡ aggregates.aggregate (scope_of scope.now) place want (reading.args (scope_of scope.now) (args_of expr args.now))) }
{
    match want {
        Want::Free => Ok(refused(Code::L17, place)),
        Want::Unknown => after_unknown(alloc, scope, args),
        Want::Type(ty) => match scope.world().form(ty) {
            Some(_) => record_by(alloc, scope, place, ty, args),
            None => after_unknown(alloc, scope, args),
        },
        Want::Subtype(subtype) => match scope.world().form(subtype) {
            Some(
                Form::Array {
                    index,
                    bounds: Some(bounds),
                    item,
                },
            ) => array_aggregate(alloc, scope, place, subtype, index, bounds, item, args),
            Some(_) => record_by(alloc, scope, place, subtype, args),
            None => after_unknown(alloc, scope, args),
        },
    }
}

#[cycle(walk)]
fn record_by(
    alloc: Global,
    scope: &Scope,
    place: Place,
    subtype: u32,
    args: &Items<Arg<Tree>>,
) -> Result<Seen, Starved>
    ensures { IfOk result (λ s. s ≡ aggregates.record_by (scope_of scope.now) place subtype (components_at (scope_of scope.now).world subtype) (reading.args (scope_of scope.now) (args_of expr args.now))) }
{
    match components_at(scope.world(), subtype) {
        Some(components) => {
            let done = record_parts(alloc, scope, place, components, args)?;
            record_made(alloc, scope, place, subtype, components, done)
        }
        None => Ok(refused(Code::L17, place)),
    }
}

/// The associations of a record's aggregate.
#[cycle(walk)]
fn record_parts(
    alloc: Global,
    scope: &Scope,
    place: Place,
    components: &[Component],
    args: &Items<Arg<Tree>>,
) -> Result<Found<Items<Association<Expr>>>, Starved>
    requires { length components.now ≤ 4294967295 }
    ensures { IfOk result (λ xs. xs ≡ aggregates.record_parts (scope_of scope.now) place components.now [] false (found'.Is []) (reading.args (scope_of scope.now) (args_of expr args.now))) }
{
    let all = args.as_slice();
    let mut given: Items<u32> = Items::new(alloc);
    let mut named = false;
    let mut done = Found::Is(Items::new(alloc));
    let mut at = 0;
    while at < all.len() {
        let arg = &all[at];
        let last = at + 1 == all.len();
        let gives = match components_for(
            alloc,
            scope,
            components,
            given.as_slice(),
            named,
            arg,
            last,
        ) {
            Ok(Some(gives)) => gives,
            Ok(None) => {
                let refusal = Refusal {
                    code: Code::L16,
                    place: scope.place(arg.span.from),
                };
                return Ok(spoiled(done, refusal));
            }
            Err(error) => {
                drop(done);
                return Err(error);
            }
        };
        done = with_association(alloc, scope, components, &gives, arg, done)?;
        given = also_given(gives, given)?;
        named = named || arg.value.is_some();
        at += 1;
    }
    Ok(record_ended(place, components, given.as_slice(), done))
}

#[tactic(auto, using(operand_rules::proofs::Read::value_for_of_read))]
#[cycle(walk)]
fn with_association(
    alloc: Global,
    scope: &Scope,
    components: &[Component],
    gives: &Gives,
    arg: &Arg<Tree>,
    done: Found<Items<Association<Expr>>>,
) -> Result<Found<Items<Association<Expr>>>, Starved>
    ensures { IfOk result (λ xs. xs ≡ fits.both (λ xs x. xs ++ (x ∷ [])) done (aggregates.value_for (scope_of scope.now) components.now gives.now (aggregates.first_given components.now gives.now.numbers) (calls.operand_of (reading.arg (scope_of scope.now) (arg_of expr arg.now))))) }
{
    let first = first_given(components, gives.numbers.as_slice());
    let operand = match read_given(alloc, scope, Want::Subtype(first), arg) {
        Ok(operand) => operand,
        Err(error) => {
            drop(done);
            return Err(error);
        }
    };
    match value_for_read(alloc, scope, components, gives, first, operand) {
        Ok(found) => added(done, found),
        Err(error) => {
            drop(done);
            Err(error)
        }
    }
}

/// The numbers that one expression as a choice has.
#[cycle(walk)]
fn lone_range(
    alloc: Global,
    scope: &Scope,
    ty: u32,
    choice: &Item<Tree>,
) -> Result<Found<Bounds>, Starved>
    ensures { IfOk result (λ b. b ≡ fits.with_found ranges.choice_range (ranges.single_choice (scope_of scope.now) code.L16 ty (reading.item (scope_of scope.now) (item_of expr choice.now)))) }
{
    let ReadOperand { place, prefix } = read_item(alloc, scope, Want::Type(ty), choice)?;
    let choice = choice_by(alloc, scope, Code::L16, ty, place, prefix)?;
    Ok(bounds_chosen(choice))
}

/// A bound of a choice: a static value.
#[cycle(walk)]
fn bound_of(alloc: Global, scope: &Scope, ty: u32, e: &Tree) -> Result<Found<i128>, Starved>
    ensures { IfOk result (λ n. n ≡ ranges.value_at (scope_of scope.now) code.L16 ty (values.place_of (scope_of scope.now) (reading.read (scope_of scope.now) (expr e.now))) (values.seen_of (scope_of scope.now) (reading.read (scope_of scope.now) (expr e.now)) (want'.Type ty))) }
{
    let place = expression_place(scope, e);
    let seen = seen(alloc, scope, Want::Type(ty), e)?;
    value_at(alloc, scope, Code::L16, ty, place, seen)
}

/// What an association of an array is, whose index is of this type and whose items are of this subtype.
#[cycle(walk)]
fn read_sort(
    alloc: Global,
    scope: &Scope,
    ty: u32,
    item: u32,
    arg: &Arg<Tree>,
) -> Result<ReadSort, Starved>
    ensures { IfOk result (λ s. s ≡ sort_read (scope_of scope.now) item (aggregates.sort_of (scope_of scope.now) ty (reading.arg (scope_of scope.now) (arg_of expr arg.now)))) }
{
    match &arg.value {
        None => match &arg.choice {
            ArgChoice::Item(value) => {
                let operand = read_item(alloc, scope, Want::Subtype(item), value)?;
                Ok(ReadSort::Positional(operand))
            }
            ArgChoice::Others => Ok(ReadSort::Misfit),
            ArgChoice::Range(_, _) => Ok(ReadSort::Misfit),
        },
        Some(value) => match &arg.choice {
            ArgChoice::Item(choice) => {
                let range = lone_range(alloc, scope, ty, choice)?;
                let operand = read_item(alloc, scope, Want::Subtype(item), value)?;
                Ok(ReadSort::Chosen(range, operand))
            }
            ArgChoice::Others => {
                let operand = read_item(alloc, scope, Want::Subtype(item), value)?;
                Ok(ReadSort::Rest(operand))
            }
            ArgChoice::Range(low, high) => {
                let first = bound_of(alloc, scope, ty, low)?;
                let last = bound_of(alloc, scope, ty, high)?;
                let range = bounds_chosen(range_choice(first, last));
                let operand = read_item(alloc, scope, Want::Subtype(item), value)?;
                Ok(ReadSort::Chosen(range, operand))
            }
        },
    }
}

/// The associations of an array with these bounds.
#[cycle(walk)]
fn array_items(
    alloc: Global,
    scope: &Scope,
    index: u32,
    bounds: Bounds,
    item: u32,
    args: &Items<Arg<Tree>>,
) -> Result<ArrayItems, Starved>
    ensures { IfOk result (λ i. i ≡ aggregates.items (scope_of scope.now) (record { index = index; bounds = Some bounds; item = item }) bounds 0 manner.Either aggregates.none_gathered (reading.args (scope_of scope.now) (args_of expr args.now))) }
{
    let all = args.as_slice();
    let ty = type_of(scope.world(), index);
    let mut manner = Manner::Either;
    let mut gathered = Gathered {
        ranges: Found::Is(Items::new(alloc)),
        done: Found::Is(Items::new(alloc)),
    };
    let mut at = 0;
    while at < all.len() {
        let arg = &all[at];
        let sort = match read_sort(alloc, scope, ty, item, arg) {
            Ok(sort) => sort,
            Err(error) => {
                drop(gathered);
                return Err(error);
            }
        };
        let last = at + 1 == all.len();
        match item_step(
            alloc, scope, item, bounds, at, last, manner, gathered, arg, sort,
        ) {
            Ok(ItemStep::Ended(items)) => return Ok(items),
            Ok(ItemStep::Further(next, more)) => {
                manner = next;
                gathered = more;
            }
            Err(error) => return Err(error),
        }
        at += 1;
    }
    Ok(ArrayItems {
        gathered,
        partial: false,
    })
}

/// An aggregate of a constrained array subtype.
#[cycle(walk)]
fn array_aggregate(
    alloc: Global,
    scope: &Scope,
    place: Place,
    subtype: u32,
    index: u32,
    bounds: Bounds,
    item: u32,
    args: &Items<Arg<Tree>>,
) -> Result<Seen, Starved>
    ensures { IfOk result (λ s. s ≡ aggregates.array_aggregate (scope_of scope.now) place subtype (record { index = index; bounds = Some bounds; item = item }) bounds (reading.args (scope_of scope.now) (args_of expr args.now))) }
{
    let items = array_items(alloc, scope, index, bounds, item, args)?;
    let done = items_covered(alloc, scope, place, bounds, args.as_slice(), items)?;
    array_made(alloc, scope, place, subtype, bounds, done)
}

#[tactic(auto, using(crate::proofs::Walked::qualified_some, crate::proofs::Walked::qualified_none))]
#[cycle(walk)]
fn qualified_by(
    alloc: Global,
    scope: &Scope,
    place: Place,
    subtype: u32,
    tick: Place,
    args: &Items<Arg<Tree>>,
) -> Result<Prefix, Starved>
    ensures { IfOk result (λ f. f ≡ prefix'.Value (aggregates.qualified_by (scope_of scope.now) place subtype tick (reading.args (scope_of scope.now) (args_of expr args.now)) (names.only_operand (reading.args (scope_of scope.now) (args_of expr args.now))))) }
{
    match read_only(alloc, scope, Want::Subtype(subtype), args)? {
        Some(operand) => {
            let at = operand.place;
            let seen = value_read(alloc, scope, operand)?;
            qualified_value(alloc, scope, place, subtype, at, seen)
        }
        None => {
            let seen = aggregate(alloc, scope, tick, Want::Subtype(subtype), args)?;
            qualified_value(alloc, scope, place, subtype, tick, seen)
        }
    }
}

/// A qualified expression, with the place of its tick.
#[cycle(walk)]
fn qualification(
    alloc: Global,
    scope: &Scope,
    place: Place,
    prefix: Prefix,
    tick: Place,
    args: &Items<Arg<Tree>>,
) -> Result<Prefix, Starved>
    ensures { IfOk result (λ f. f ≡ prefix'.Value (aggregates.qualification (scope_of scope.now) place prefix tick (reading.args (scope_of scope.now) (args_of expr args.now)))) }
{
    match prefix {
        Prefix::Subtype(subtype) => qualified_by(alloc, scope, place, subtype, tick, args),
        Prefix::Package => not_qualified(alloc, scope, place, Prefix::Package),
        Prefix::Routine(number) => not_qualified(alloc, scope, place, Prefix::Routine(number)),
        Prefix::Called(number, given) => {
            not_qualified(alloc, scope, place, Prefix::Called(number, given))
        }
        Prefix::Mapping(mapping, at, subtype) => {
            not_qualified(alloc, scope, place, Prefix::Mapping(mapping, at, subtype))
        }
        Prefix::Range(range) => not_qualified(alloc, scope, place, Prefix::Range(range)),
        Prefix::Constant(ty, x) => not_qualified(alloc, scope, place, Prefix::Constant(ty, x)),
        Prefix::Part(part) => not_qualified(alloc, scope, place, Prefix::Part(part)),
        Prefix::Value(seen) => not_qualified(alloc, scope, place, Prefix::Value(seen)),
    }
}

// ---- ranges

/// What a range reaches over in a context, by a rule. `Err` where memory was refused.
#[cycle(walk)]
pub fn reach_of(
    alloc: Global,
    scope: &Scope,
    code: Code,
    want: Want,
    range: &Range<Tree>,
) -> Result<Reach, Starved>
    ensures { IfOk result (λ r. r ≡ ranges.reach_of (scope_of scope.now) code want (reading.range (scope_of scope.now) (range_of expr range.now))) }
{
    let at = expression_place(scope, &range.low);
    match &range.high {
        Some(high) => {
            let wanted = want_or(want, kind(scope, high));
            let first = seen(alloc, scope, wanted, &range.low)?;
            let wanted = want_or(want, kind(scope, &range.low));
            let last = match seen(alloc, scope, wanted, high) {
                Ok(last) => last,
                Err(error) => {
                    drop(first);
                    return Err(error);
                }
            };
            two_reach(
                alloc,
                scope,
                code,
                at,
                expression_place(scope, high),
                first,
                last,
            )
        }
        None => {
            let prefix = prefix(alloc, scope, want, &range.low)?;
            lone_reach(alloc, scope, code, at, prefix)
        }
    }
}

/// The range of a loop or a quantified expression, by a rule; of Integer where it is universal.
#[tactic(auto, using(range_rules::proofs::Placed::reach_in_placed))]
#[cycle(walk)]
pub(crate) fn range_found(
    alloc: Global,
    scope: &Scope,
    code: Code,
    range: &Range<Tree>,
) -> Result<Found<Between>, Starved>
    ensures { IfOk result (λ b. b ≡ ranges.range_found (scope_of scope.now) code (reading.range (scope_of scope.now) (range_of expr range.now))) }
{
    let reach = reach_of(alloc, scope, code, Want::Free, range)?;
    let low = expression_place(scope, &range.low);
    let high = high_place(scope, range);
    reach_in(alloc, scope, code, INTEGER_BASE, low, high, reach)
}

// ---- conditions, if-expressions and quantified expressions

#[cycle(walk)]
fn read_condition(
    alloc: Global,
    scope: &Scope,
    code: Code,
    e: &Tree,
) -> Result<Found<Expr>, Starved>
    ensures { IfOk result (λ x. x ≡ conditions.condition (scope_of scope.now) code (reading.read (scope_of scope.now) (expr e.now))) }
{
    let seen = seen(alloc, scope, Want::Type(BOOLEAN), e)?;
    Ok(condition(scope, code, expression_place(scope, e), seen))
}

#[cycle(walk)]
fn read_branch(alloc: Global, scope: &Scope, want: Want, e: &Tree) -> Result<ReadBranch, Starved>
    ensures { IfOk result (λ b. b ≡ ifs.read_branch (scope_of scope.now) want (reading.read (scope_of scope.now) (expr e.now))) }
{
    let place = expression_place(scope, e);
    let seen = seen(alloc, scope, want, e)?;
    Ok(ReadBranch { place, seen })
}

#[cycle(walk)]
fn read_else(
    alloc: Global,
    scope: &Scope,
    want: Want,
    otherwise: &Option<Tree>,
) -> Result<Option<ReadBranch>, Starved>
    ensures { IfOk result (λ b. b ≡ ifs.read_else (scope_of scope.now) want (reading.maybe (scope_of scope.now) (maybe_of expr otherwise.now))) }
{
    match otherwise {
        Some(e) => {
            let branch = read_branch(alloc, scope, want, e)?;
            Ok(Some(branch))
        }
        None => Ok(None),
    }
}

#[cycle(walk)]
fn read_arm(alloc: Global, scope: &Scope, want: Want, arm: &Arm<Tree>) -> Result<ReadArm, Starved>
    ensures { IfOk result (λ a. a ≡ ifs.read_arm (scope_of scope.now) want (record { condition = reading.read (scope_of scope.now) (expr arm.now.condition); gives = reading.read (scope_of scope.now) (expr arm.now.gives) })) }
{
    let condition = read_condition(alloc, scope, Code::L9, &arm.condition)?;
    match read_branch(alloc, scope, want, &arm.gives) {
        Ok(gives) => Ok(ReadArm { condition, gives }),
        Err(error) => {
            drop(condition);
            Err(error)
        }
    }
}

/// The arms of an if-expression, each part of which is read once.
#[cycle(walk)]
fn read_arms(
    alloc: Global,
    scope: &Scope,
    want: Want,
    arms: &Items<Arm<Tree>>,
) -> Result<Items<ReadArm>, Starved>
    ensures { IfOk result (λ as'. as' ≡ ifs.read_arms (scope_of scope.now) want (reading.arms (scope_of scope.now) (arms_of expr arms.now))) }
{
    let mut read = Items::new(alloc);
    for arm in arms.as_slice() {
        let one = read_arm(alloc, scope, want, arm)?;
        read.push(one)?;
    }
    Ok(read)
}

/// The predicate of a quantified expression over this range, whose index stands at a byte.
#[cycle(walk)]
fn predicate_found(
    alloc: Global,
    scope: &Scope,
    at: u32,
    range: &Found<Between>,
    predicate: &Tree,
) -> Result<Found<Expr>, Starved>
    ensures { IfOk result (λ x. x ≡ conditions.condition (scope_of scope.now) code.L23 (reading.read (with_index (scope_of scope.now) at (conditions.index_subtype (scope_of scope.now).world range.now)) (expr predicate.now))) }
{
    let subtype = index_subtype(scope.world(), range)?;
    let parameters = with_one_index(alloc, scope, at, subtype)?;
    let inner = Scope {
        world: scope.world,
        file: scope.file,
        lines: scope.lines,
        links: scope.links,
        names: scope.names,
        numbers: scope.numbers,
        own: scope.own,
        moment: scope.moment,
        parameters: parameters.as_slice(),
    };
    let place = expression_place(&inner, predicate);
    let prefix = prefix(alloc, &inner, Want::Type(BOOLEAN), predicate);
    let Scope {
        world: _,
        file: _,
        lines: _,
        links: _,
        names: _,
        numbers: _,
        own: _,
        moment: _,
        parameters: _,
    } = inner;
    let seen = value_of(alloc, scope, place, prefix?)?;
    Ok(condition(scope, Code::L23, place, seen))
}

// ---- entry points

/// What is seen of an item in a context. `Err` where memory was refused.
pub fn item_seen(
    alloc: Global,
    scope: &Scope,
    want: Want,
    item: &Item<Tree>,
) -> Result<Seen, Starved>
    ensures { IfOk result (λ s. s ≡ reading.item_seen (scope_of scope.now) want (item_of expr item.now)) }
{
    let operand = read_item(alloc, scope, want, item)?;
    value_read(alloc, scope, operand)
}

/// What a name is in a context. `Err` where memory was refused.
pub fn name_seen(
    alloc: Global,
    scope: &Scope,
    want: Want,
    name: &Name<Tree>,
) -> Result<Prefix, Starved>
    ensures { IfOk result (λ f. f ≡ reading.name_seen (scope_of scope.now) want (name_of expr name.now)) }
{
    name_prefix(alloc, scope, want, scope.place(name.span.from), name)
}
