//! Membership tests over what is seen of their parts (Ada RM 4.5.2).

ghost use Rattle.std.specs.Prelude.{◌≡◌, IfOk};
ghost use Rattle.type_base.specs.Results.{truth_at};
ghost use Rattle.typed_units.specs.declared.expressions.ExprNode.TheVariants as node;
ghost use Rattle.typing_rules.specs.Ranges.{member_number, member_of, same_truth};

use ada_values::Place;
use expression_rules::{number_in, static_truth, truth_at};
use std::alloc::Global;
use type_base::{Seen, Starved};
use typed_units::{Expr, ExprNode};
use typing_rules::Between;

fn same_truth(left: bool, right: bool) -> bool
    ensures { result ≡ same_truth left right }
{
    if left { right } else { !right }
}

fn member_made(
    alloc: Global,
    place: Place,
    is: bool,
    x: Expr,
    range: Between,
) -> Result<Seen, Starved>
    ensures { IfOk result (λ s. s ≡ truth_at place (node.Member is x range.low range.high)) }
{
    let Between {
        subtype: _,
        low,
        high,
    } = range;
    truth_at(alloc, place, ExprNode::Member(is, x, low, high))
}

/// Whether an expression lies in a range of its type, for `is` false whether it doesn't; static where all three are.
pub fn member_of(
    alloc: Global,
    place: Place,
    is: bool,
    x: Expr,
    range: Between,
) -> Result<Seen, Starved>
    ensures { IfOk result (λ s. s ≡ member_of place is x range) }
{
    match number_in(&x) {
        Some(number) => match number_in(&range.low) {
            Some(low) => match number_in(&range.high) {
                Some(high) => {
                    let lies = low <= number && number <= high;
                    static_truth(alloc, place, same_truth(is, lies))
                }
                None => member_made(alloc, place, is, x, range),
            },
            None => member_made(alloc, place, is, x, range),
        },
        None => member_made(alloc, place, is, x, range),
    }
}

/// The same for a number that has taken the range's type.
pub fn member_number(
    alloc: Global,
    place: Place,
    is: bool,
    range: Between,
    seen: Seen,
) -> Result<Seen, Starved>
    ensures { IfOk result (λ s. s ≡ member_number place is range seen) }
{
    match seen {
        Seen::Typed(_, x) => member_of(alloc, place, is, x, range),
        Seen::Refused(refusal) => Ok(Seen::Refused(refusal)),
        Seen::Unknown => Ok(Seen::Unknown),
        Seen::Number(number) => Ok(Seen::Number(number)),
    }
}
