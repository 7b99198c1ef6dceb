//! The static choice of an if-expression whose parts are static (Ada RM 4.9).

ghost use Rattle.std.specs.Prelude.{◌≡◌};
ghost use Rattle.typing_rules.specs.Conditions.{chosen, number_seen, pick, static_of, truth_found};
ghost use Rattle.condition_rules.specs.Ifs.{number_else, number_read};

use crate::branches::{ReadArm, ReadBranch};
use ada_values::Value;
use expression_rules::truth_in;
use type_base::Seen;
use typed_units::{Arm, Expr, ExprNode};
use typing_rules::Found;

/// The number or truth value that a static expression is.
fn static_of(x: &Expr) -> Option<Value>
    ensures { result ≡ static_of x.now }
{
    match x.node.get() {
        ExprNode::Static(Value::Int(number)) => Some(Value::Int(*number)),
        ExprNode::Static(Value::Bool(truth)) => Some(Value::Bool(*truth)),
        _ => None,
    }
}

/// What a condition chooses of two, where all three are static.
fn pick<T: Drop>(condition: Option<bool>, first: Option<T>, second: Option<T>) -> Option<T>
    ensures { result ≡ pick condition first second }
{
    match condition {
        None => None,
        Some(condition) => match first {
            None => None,
            Some(first) => match second {
                None => None,
                Some(second) => { if condition { Some(first) } else { Some(second) } }
            },
        },
    }
}

/// What the arms choose, where all parts are static.
#[tactic(auto, using(crate::proofs::Lasts::chosen_at))]
pub fn chosen(arms: &[Arm<Expr>], otherwise: &Expr) -> Option<Value>
    ensures { result ≡ chosen arms.now otherwise.now }
{
    let mut value = static_of(otherwise);
    let mut left = arms.len();
    while left > 0 {
        left -= 1;
        let arm = &arms[left];
        value = pick(truth_in(&arm.condition), static_of(&arm.gives), value);
    }
    value
}

fn number_seen(seen: &Seen) -> Option<i128>
    ensures { result ≡ number_seen seen.now }
{
    match seen {
        Seen::Number(number) => Some(*number),
        Seen::Refused(_) | Seen::Unknown | Seen::Typed(_, _) => None,
    }
}

fn truth_found(found: &Found<Expr>) -> Option<bool>
    ensures { result ≡ truth_found found.now }
{
    match found {
        Found::Is(x) => truth_in(x),
        Found::Refused(_) | Found::Unknown => None,
    }
}

#[tactic(auto, using(crate::proofs::Lasts::number_at))]
fn number_read(arms: &[ReadArm], otherwise: &Seen) -> Option<i128>
    ensures { result ≡ number_read arms.now otherwise.now }
{
    let mut number = number_seen(otherwise);
    let mut left = arms.len();
    while left > 0 {
        left -= 1;
        let arm = &arms[left];
        let truth = truth_found(&arm.condition);
        number = pick(truth, number_seen(&arm.gives.seen), number);
    }
    number
}

/// The number that static conditions choose among branches that are numbers.
pub fn number_else(arms: &[ReadArm], otherwise: &Option<ReadBranch>) -> Option<i128>
    ensures { result ≡ number_else arms.now otherwise.now }
{
    match otherwise {
        Some(branch) => number_read(arms, &branch.seen),
        None => None,
    }
}
