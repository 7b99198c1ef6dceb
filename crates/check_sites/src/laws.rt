//! What the sites of a program are.

ghost use Rattle.std.specs.Prelude.{◌≡◌, ◌<◌, ◌≤◌, ℕ, true, Some, Contains, slice_get};
ghost use Rattle.typed_units.specs.declared.checks.SiteKey.{SiteKey};
ghost use Rattle.typed_units.specs.Sites.{site_before};
ghost use Rattle.typed_units.specs.Syntax.{Text};
ghost use Rattle.check_sites.specs.declared.site.Site.{Site};
ghost use Rattle.check_sites.specs.Has.{HasCheck};
ghost use Rattle.check_sites.specs.Ordered.{sites_of};

/// The sites of a program are the checks of its subprograms' nodes and nothing else, in order, and no two have one key. The
/// owner of a site is the first subprogram that has the check.

pub fn laws_of_program_sites()
    ensures each { (t : Text) (k : ℕ) (c : SiteKey) → HasCheck t k c → (s : Site) × Contains (sites_of t) s × (s.key ≡ c) }
    ensures only { (t : Text) (s : Site) → Contains (sites_of t) s → HasCheck t s.owner s.key }
    ensures first { (t : Text) (s : Site) (k : ℕ) → Contains (sites_of t) s → HasCheck t k s.key → s.owner ≤ k }
    ensures ascending { (t : Text) (i : ℕ) (j : ℕ) (c : Site) (d : Site) → slice_get (sites_of t) i ≡ Some c → slice_get (sites_of t) j ≡ Some d → i < j → site_before c.key d.key ≡ true }
{}
