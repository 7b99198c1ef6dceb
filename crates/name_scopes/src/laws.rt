//! What a name stands for.

ghost use Rattle.std.specs.Prelude.{◌≡◌, ◌++◌, ℕ, List, [], ◌∷◌, true, false, None, Some};
ghost use Rattle.name_library.specs.declared.events.Event.{Event};
ghost use Rattle.name_library.specs.declared.events.Event.TheVariants as event;
ghost use Rattle.name_library.specs.declared.events.Ident.{Ident};
ghost use Rattle.name_library.specs.declared.events.Manner.TheVariants.{Plain};
ghost use Rattle.name_library.specs.declared.links.Link.{Link};
ghost use Rattle.name_library.specs.declared.links.Link.TheVariants.{Declared};
ghost use Rattle.name_library.specs.declared.links.NameFault.TheVariants as rule;
ghost use Rattle.name_library.specs.declared.library.LibraryUnit.{LibraryUnit};
ghost use Rattle.name_frames.specs.declared.frames.Sight.{Sight};
ghost use Rattle.name_frames.specs.declared.meaning.Found.TheVariants.{One, Missing, Several};
ghost use Rattle.name_scopes.specs.declared.state.Scopes.{Scopes};
ghost use Rattle.name_frames.specs.Frames.{innermost};
ghost use Rattle.name_scopes.specs.Open.{Item, StandsFor, last_declared, nothing_open, open_after};
ghost use Rattle.name_frames.specs.Meaning.{all_same, offered};
ghost use Rattle.name_scopes.specs.State.{carried, frames, spot_in, start};
ghost use Rattle.name_scopes.specs.Steps.{after, meaning, step};
ghost use Rattle.name_scopes.specs.Visible.{IsForUse, IsFromOutside};

/// Where a scope around the place declares a name, it stands for the innermost such declaration, once that has ended.
pub fn innermost_first()
    ensures ended { (l : List LibraryUnit) (s : Scopes) (n : ℕ) (e : Sight) → innermost n (frames s) ≡ Some e → e.ended ≡ true → meaning l s n ≡ One (Declared e.spot) }
    ensures hidden { (l : List LibraryUnit) (s : Scopes) (n : ℕ) (e : Sight) → innermost n (frames s) ≡ Some e → e.ended ≡ false → meaning l s n ≡ Missing }
{}

/// Else it stands for the only declaration that use clauses make visible.
pub fn else_by_use()
    ensures none { (l : List LibraryUnit) (s : Scopes) (n : ℕ) → IsForUse s n → offered l n s.top.used ≡ [] → meaning l s n ≡ Missing }
    ensures one { (l : List LibraryUnit) (s : Scopes) (n : ℕ) (a : Link) (more : List Link) → IsForUse s n → offered l n s.top.used ≡ a ∷ more → all_same a more ≡ true → meaning l s n ≡ One a }
    ensures two { (l : List LibraryUnit) (s : Scopes) (n : ℕ) (a : Link) (more : List Link) → IsForUse s n → offered l n s.top.used ≡ a ∷ more → all_same a more ≡ false → meaning l s n ≡ Several }
{}

/// A name gets the link of what it stands for, or is refused at its identifier.
pub fn names_get_links()
    ensures one { (l : List LibraryUnit) (s : Scopes) (i : Ident) (a : Link) → meaning l s i.name ≡ One a → (step l s (event.Name i Plain)).findings.usages ≡ s.findings.usages ++ record { spot = spot_in s i.at; link = a } ∷ [] }
    ensures none { (l : List LibraryUnit) (s : Scopes) (i : Ident) → meaning l s i.name ≡ Missing → (step l s (event.Name i Plain)).findings.faults ≡ s.findings.faults ++ record { rule = rule.UnknownName; spot = spot_in s i.at } ∷ [] }
    ensures two { (l : List LibraryUnit) (s : Scopes) (i : Ident) → meaning l s i.name ≡ Several → (step l s (event.Name i Plain)).findings.faults ≡ s.findings.faults ++ record { rule = rule.AmbiguousName; spot = spot_in s i.at } ∷ [] }
{}

/// After any events of a file, a name stands for the last declaration of it whose scope is open, if the name stands for anything; and
/// so in a body's file, where the scopes of the declaration's file are open. A name that no open scope declares is left to Standard,
/// with clauses and use clauses.
pub fn last_declaration_counts()
    ensures in_file { (l : List LibraryUnit) (file : ℕ) (es : List Event) (n : ℕ) (i : Item) → last_declared n (open_after file nothing_open es) ≡ Some i → StandsFor i (meaning l (after l (start file) es) n) }
    ensures in_body { (l : List LibraryUnit) (first file : ℕ) (es more : List Event) (n : ℕ) (i : Item) → last_declared n (open_after file (open_after first nothing_open es) more) ≡ Some i → StandsFor i (meaning l (after l (carried file (after l (start first) es)) more) n) }
    ensures others { (l : List LibraryUnit) (file : ℕ) (es : List Event) (n : ℕ) → last_declared n (open_after file nothing_open es) ≡ None → IsFromOutside l (after l (start file) es) n }
{}
