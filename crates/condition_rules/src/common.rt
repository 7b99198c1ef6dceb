//! The type that the branches of an if-expression have in common (Ada RM 4.5.7).

ghost use Rattle.std.specs.Prelude.{◌≡◌};
ghost use Rattle.reading_scope.specs.Scopes.{scope_of};
ghost use Rattle.typing_rules.specs.Conditions.{common_by, result_by};
ghost use Rattle.condition_rules.specs.Ifs.{common, seen_subtype, subtype_read, typed_read};

use crate::branches::{ReadArm, ReadBranch};
use name_values::type_of;
use reading_scope::Scope;
use type_base::{BOOLEAN, Form, Seen, Want};

/// The number of the type of an if-expression's branches, and of the subtype of the first of them that has a type.
#[derive(Clone, Copy)]
pub struct Common {
    pub ty: u32,
    pub subtype: u32,
}

/// The number of the subtype of what has a type.
fn seen_subtype(seen: &Seen) -> Option<u32>
    ensures { result ≡ seen_subtype seen.now }
{
    match seen {
        Seen::Typed(_, x) => Some(x.subtype),
        Seen::Refused(_) | Seen::Unknown | Seen::Number(_) => None,
    }
}

/// The number of the subtype of the first branch that has a type.
fn subtype_read(mut arms: &[ReadArm], otherwise: &Seen) -> Option<u32>
    ensures { result ≡ subtype_read arms.entry.now otherwise.now }
{
    while let [first, rest @ ..] = arms {
        match seen_subtype(&first.gives.seen) {
            Some(subtype) => return Some(subtype),
            None => arms = rest,
        }
    }
    seen_subtype(otherwise)
}

/// The type that the branches have: that of the first that has one, and else that integer type that the context gives, or
/// Integer; Boolean where there is no `else`.
#[tactic(auto, using(crate::proofs::Firsts::common_first))]
pub fn common_of(
    scope: &Scope,
    want: Want,
    arms: &[ReadArm],
    otherwise: &Option<ReadBranch>,
) -> Common
    ensures { common result ≡ common_by (scope_of scope.now) want (typed_read arms.now otherwise.now) }
{
    match otherwise {
        None => Common {
            ty: BOOLEAN,
            subtype: BOOLEAN,
        },
        Some(branch) => match subtype_read(arms, &branch.seen) {
            None => {
                let ty = scope.world().wanted_integer(want);
                Common { ty, subtype: ty }
            }
            Some(subtype) => Common {
                ty: type_of(scope.world(), subtype),
                subtype,
            },
        },
    }
}

/// The subtype of the whole: that of the first branch where it is an array's, and else the type.
pub fn result_by(kind: Common, form: Option<Form>) -> u32
    ensures { result ≡ result_by (common kind) form }
{
    match form {
        Some(Form::Array { .. }) => kind.subtype,
        _ => kind.ty,
    }
}
