//! Conditions (Ada RM 5.3, 5.5, 5.7).

ghost use Rattle.std.specs.Prelude.{◌≡◌};
ghost use Rattle.statement_typing.specs.Aspects.{condition, truth_seen};

use ada_values::Place;
use type_base::{Code, Demand, Refusal, Seen, World, operand};
use typed_units::Expr;
use typing_rules::Found;

/// What an operand that is to be Boolean is: a number breaks the rule.
pub fn truth_seen(code: Code, place: Place, seen: Seen) -> Found<Expr>
    ensures { result ≡ truth_seen code place seen }
{
    match seen {
        Seen::Refused(refusal) => Found::Refused(refusal),
        Seen::Unknown => Found::Unknown,
        Seen::Number(_) => Found::Refused(Refusal { code, place }),
        Seen::Typed(_, x) => Found::Is(x),
    }
}

/// What has been seen at a place, which by a rule is to be Boolean.
pub fn condition(world: &World, code: Code, place: Place, seen: Seen) -> Found<Expr>
    ensures { result ≡ condition world.now code place seen }
{
    truth_seen(
        code,
        place,
        operand(world, Demand::Truth, code, place, seen),
    )
}
