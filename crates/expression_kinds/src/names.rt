//! What names tell of their types.

ghost use Rattle.std.specs.Prelude.{◌≡◌};
ghost use Rattle.reading_scope.specs.Scopes.{scope_of};
ghost use Rattle.syntax_view.specs.View.{expr, name_of, suffix_of};
ghost use Rattle.typing_rules.specs.Forms.{form_kind};
ghost use Rattle.typing_rules.specs.Kinds.{selected_hint, suffix_hint};
ghost use Rattle.typing_rules.specs.Reading as reading;

use ada_syntax::{Attribute, Expr, Name, Suffix};
use name_kinds::{
    applied_hint, attribute_hint, called_hint, component_hint, entity_hint, qualified_hint,
    value_kind,
};
use name_library::Link;
use name_values::{entity_by, entity_of};
use reading_scope::Scope;
use typing_rules::Hint;

/// What a name tells with a selector, whose identifier has this link.
fn selected_hint(scope: &Scope, hint: Hint, at: u32, link: Option<Link>) -> Hint
    ensures { result ≡ selected_hint (scope_of scope.now) hint at link }
{
    match link {
        Some(_) => entity_hint(entity_by(scope, link)),
        None => component_hint(
            scope.world(),
            scope.name(at),
            called_hint(scope.world(), hint),
        ),
    }
}

fn suffix_hint(scope: &Scope, hint: Hint, suffix: &Suffix<Expr>) -> Hint
    ensures { result ≡ suffix_hint (scope_of scope.now) hint (reading.suffix (scope_of scope.now) (suffix_of expr suffix.now)) }
{
    match suffix {
        Suffix::Selected(name) => selected_hint(scope, hint, name.from, scope.link(name.from)),
        Suffix::Ticked(_, Attribute::Named(name)) => {
            attribute_hint(scope.world(), hint, scope.word(name.from))
        }
        Suffix::Ticked(_, Attribute::Range) => Hint::Nothing,
        Suffix::Ticked(_, Attribute::Qualified(_)) => qualified_hint(hint),
        Suffix::Applied(_) => applied_hint(scope.world(), hint),
    }
}

/// The type that a name tells.
pub(crate) fn name_kind(scope: &Scope, name: &Name<Expr>) -> Option<u32>
    ensures { result ≡ form_kind (scope_of scope.now) (reading.name_form (scope_of scope.now) (name_of expr name.now)) }
{
    let mut hint = entity_hint(entity_of(scope, name.first.from));
    for suffix in name.suffixes.as_slice() {
        hint = suffix_hint(scope, hint, suffix);
    }
    value_kind(scope.world(), called_hint(scope.world(), hint))
}
