//! What the names of subtypes and of globals stand for (Ada RM 3.2.2, 4.1.3).

ghost use Rattle.std.specs.Prelude.{◌≡◌};
ghost use Rattle.reading_scope.specs.Scopes.{scope_of};
ghost use Rattle.routine_rules.specs.Marks.{mark_as};
ghost use Rattle.statement_typing.specs.Subtypes.{mark_of};
ghost use Rattle.syntax_view.specs.View.{expr, name_of};

use ada_syntax::{Expr as Tree, Name, Suffix};
use name_values::entity_of;
use reading_scope::Scope;
use type_base::Entity;

/// What the prefix of a name stands for that selectors of packages make up, and the suffixes after it. Contracts speak of it by
/// `mark_as`.
#[derive(Clone, Copy)]
pub struct Mark<'a> {
    pub entity: Entity,
    pub rest: &'a [Suffix<Tree>],
}

/// What a name stands for. A selector without a link, which is left to the types, follows no package's name.
pub fn mark_of<'a>(scope: &Scope, name: &'a Name<Tree>) -> Mark<'a>
    ensures { mark_as result ≡ mark_of (scope_of scope.now) (name_of expr name.now) }
{
    let mut at = name.first.from;
    let mut rest = name.suffixes.as_slice();
    while let [first, after @ ..] = rest {
        match first {
            Suffix::Selected(selector) => match scope.link(selector.from) {
                None => {
                    return Mark {
                        entity: Entity::Package,
                        rest: after,
                    };
                }
                Some(_) => {
                    at = selector.from;
                    rest = after;
                }
            },
            Suffix::Ticked(_, _) | Suffix::Applied(_) => {
                return Mark {
                    entity: entity_of(scope, at),
                    rest,
                };
            }
        }
    }
    Mark {
        entity: entity_of(scope, at),
        rest: &[],
    }
}
