//! What holds of all files' events.

ghost use Rattle.std.specs.Prelude.{◌≡◌, ℕ, [], IsSome, Some};
ghost use Rattle.name_library.specs.Library.{unit_after};
ghost use Rattle.name_events.specs.Events.{events};
ghost use Rattle.name_events.specs.Nested.{depth};
ghost use Rattle.syntax_view.specs.Trees.{SourceUnit};

/// The scopes of a file nest: each that opens closes again, but for a package's, which opens outside of all others and stays open; and
/// none closes that didn't open.
pub fn scopes_nest()
    ensures { (n : ℕ → ℕ) (file : SourceUnit) → depth (events n file) ≡ Some 0 }
{}

/// Each file has a unit among those that are told of it.
pub fn each_file_has_a_unit()
    ensures { (n : ℕ → ℕ) (file : SourceUnit) (number : ℕ) → IsSome (unit_after number [] (events n file)) }
{}
