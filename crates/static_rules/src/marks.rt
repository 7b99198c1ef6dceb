//! What the identifiers and points of a subtype's name stand for.

ghost use Rattle.std.specs.Prelude.{◌≡◌};
ghost use Rattle.reading_scope.specs.Scopes.{scope_of};
ghost use Rattle.static_rules.specs.Marks.{mark_as};
ghost use Rattle.statement_typing.specs.Subtypes.{mark_from, mark_of};
ghost use Rattle.syntax_view.specs.View.{expr, name_of, suffixes_of};

use ada_syntax::{Expr, Name, Suffix};
use name_values::entity_of;
use reading_scope::Scope;
use type_base::Entity;

/// What the identifiers and points that a name begins with stand for, and the suffixes that follow them.
#[derive(Clone, Copy)]
pub struct Mark<'a> {
    pub entity: Entity,
    pub rest: &'a [Suffix<Expr>],
}

/// What an identifier at a byte and the selectors after it stand for. A selector that the names leave to the types is a
/// component, after a package.
fn mark_from<'a>(scope: &Scope, mut at: u32, mut rest: &'a [Suffix<Expr>]) -> Mark<'a>
    ensures { mark_as result ≡ mark_from (scope_of scope.now) at (suffixes_of expr rest.entry.now) }
{
    while let [first, others @ ..] = rest {
        match first {
            Suffix::Selected(name) => match scope.link(name.from) {
                None => {
                    return Mark {
                        entity: Entity::Package,
                        rest: others,
                    };
                }
                Some(_) => {
                    at = name.from;
                    rest = others;
                }
            },
            Suffix::Ticked(_, _) | Suffix::Applied(_) => {
                return Mark {
                    entity: entity_of(scope, at),
                    rest,
                };
            }
        }
    }
    Mark {
        entity: entity_of(scope, at),
        rest,
    }
}

/// What a name's identifiers and points stand for, and what follows them.
pub fn mark_of<'a>(scope: &Scope, name: &'a Name<Expr>) -> Mark<'a>
    ensures { mark_as result ≡ mark_of (scope_of scope.now) (name_of expr name.now) }
{
    mark_from(scope, name.first.from, name.suffixes.as_slice())
}
