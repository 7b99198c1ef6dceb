//! What the context gives operands (Ada RM 8.6).

ghost use Rattle.std.specs.Prelude.{◌≡◌};
ghost use Rattle.typing_rules.specs.Ranges.{want_or, weaker};

use type_base::{Want, World};

/// A type, where one is known, in place of what the context gives.
pub fn want_or(want: Want, ty: Option<u32>) -> Want
    ensures { result ≡ want_or want ty }
{
    match ty {
        Some(ty) => Want::Type(ty),
        None => want,
    }
}

/// The type that an outer context gives, without its constraint.
pub fn weaker(world: &World, want: Want) -> Want
    ensures { result ≡ weaker world.now want }
{
    match want {
        Want::Subtype(subtype) => match world.type_of(subtype) {
            Some(ty) => Want::Type(ty),
            None => Want::Unknown,
        },
        Want::Free => Want::Free,
        Want::Unknown => Want::Unknown,
        Want::Type(ty) => Want::Type(ty),
    }
}
