//! Run-time checks and contracts, by kind and place.

ghost use Rattle.std.specs.Prelude.{◌≡◌, true, false};
ghost use Rattle.typed_units.specs.Sites.{same_site, site_before};

use ada_values::Place;

/// The kinds of check, in the order in which a report lists those at one place.
#[derive(Clone, Copy, Debug, PartialEq, Eq, PartialOrd, Ord)]
pub enum CheckKind {
    Overflow,
    Range,
    Index,
    Division,
    Pre,
    Post,
    Assert,
    Assume,
    /// A loop invariant in the first turn that reaches it.
    InvFirst,
    /// A loop invariant in a later turn.
    InvKept,
    Variant,
}

/// A site: checks of one kind at one place.
#[derive(Clone, Copy, Debug, PartialEq, Eq, PartialOrd, Ord)]
pub struct SiteKey {
    pub place: Place,
    pub kind: CheckKind,
}

/// Whether two sites are one: the same place, and the same kind of check.
pub fn same_site(left: SiteKey, right: SiteKey) -> bool
    ensures { result ≡ same_site left right }
{
    left == right
}

/// Sites that are the same are equal, and the order of sites (file, line, column, kind) is a strict order in which, of two
/// that differ, one comes first.
#[tactic(auto, using(crate::proofs::Sites::same_is_equal, crate::proofs::Sites::same_itself, crate::proofs::Sites::before_chain, crate::proofs::Sites::before_itself, crate::proofs::Sites::before_neither))]
pub fn laws_of_sites()
    ensures equal { (c : SiteKey) (d : SiteKey) → same_site c d ≡ true → c ≡ d }
    ensures one { (c : SiteKey) → same_site c c ≡ true }
    ensures chain { (a : SiteKey) (b : SiteKey) (c : SiteKey) → site_before a b ≡ true → site_before b c ≡ true → site_before a c ≡ true }
    ensures itself { (c : SiteKey) → site_before c c ≡ false }
    ensures neither { (c : SiteKey) (d : SiteKey) → site_before c d ≡ false → site_before d c ≡ false → c ≡ d }
{}
