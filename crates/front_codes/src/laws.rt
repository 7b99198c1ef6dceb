//! Which refusal is the first.

ghost use Rattle.std.specs.Prelude.{◌≡◌, true, false};
ghost use Rattle.front_codes.specs.declared.codes.Refusal.{Refusal};
ghost use Rattle.front_codes.specs.Codes.{is_before};

/// The order of refusals (file, line, column, code) is a strict order in which, of two that differ, one comes first. So of
/// any refusals one is the first.
pub fn laws_of_refusals()
    ensures chain { (f : Refusal) (g : Refusal) (h : Refusal) → is_before f g ≡ true → is_before g h ≡ true → is_before f h ≡ true }
    ensures itself { (f : Refusal) → is_before f f ≡ false }
    ensures neither { (f : Refusal) (g : Refusal) → is_before f g ≡ false → is_before g f ≡ false → f ≡ g }
{}
