//! What the forms of trees keep.

ghost use Rattle.std.specs.Prelude.{◌≡◌, ◌<◌, ◌-◌, ◌^◌, ℕ, All, List, Some, length};
ghost use Rattle.ada_syntax.specs.declared.units.SourceUnit.{SourceUnit};
ghost use Rattle.first_form.specs.declared.form.FirstForm.{FirstForm};
ghost use Rattle.first_form.specs.Form.{IsForm};
ghost use Rattle.first_form.specs.Spelled.{IsInFile};
ghost use Rattle.first_form.specs.Tree.{form_of};

/// The form of a tree keeps the limits of a form.
pub fn forms_are_forms()
    ensures { (text : List ℕ) (unit : SourceUnit) (f : FirstForm) → form_of text unit ≡ Some f → IsForm f }
{}

/// Pragmas and operands of the form of a tree stand in the one file.
pub fn places_are_in_file()
    ensures { (text : List ℕ) (unit : SourceUnit) (f : FirstForm) → length text < 2 ^ 32 - 1 → form_of text unit ≡ Some f
        → All (λ a. IsInFile a.place × IsInFile a.left.place × IsInFile a.right.place) f.assertions }
{}
