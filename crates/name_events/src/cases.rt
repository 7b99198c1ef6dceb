//! Worked cases of what a walk tells.
//!
//! In the cases an identifier is its first byte, which is the number of its name too.

ghost use Rattle.std.specs.Prelude.{◌≡◌, true, false, [], ◌∷◌};
ghost use Rattle.name_events.specs.Cases.{association, bare_pragma, begun, between, declaration_tells, for_all, for_in, group_tells, ident_at, loop_tells, name_tells, null_at, one, own_number, package_file, positional, procedure, range_of, record_type, short_body, simple, spot, tells_in, uses, variable, with_args};
ghost use Rattle.name_events.specs.Declarations.{mark_onto, pragma_as_onto};
ghost use Rattle.name_events.specs.Events.{events};
ghost use Rattle.name_events.specs.declared.words.PragmaKind.TheVariants as pragma_kinds;
ghost use Rattle.name_events.specs.declared.words.Region.TheVariants as region;
ghost use Rattle.name_library.specs.declared.events.Event.TheVariants as event;
ghost use Rattle.name_library.specs.declared.events.Kind.TheVariants as kind;
ghost use Rattle.name_library.specs.declared.events.Manner.TheVariants as manner;
ghost use Rattle.name_library.specs.declared.events.Mode.TheVariants as mode;
ghost use Rattle.name_library.specs.declared.events.Scope.TheVariants as scope;
ghost use Rattle.name_uses.specs.Uses.{name_onto};
ghost use Rattle.name_uses.specs.declared.places.Within.TheVariants as within;
ghost use Rattle.syntax_view.specs.Trees.{suffixes, no_suffixes, selected, applied, forever, no_body, no_decls, decls};

/// A name, its selectors, and what stands in parentheses after it (Ada RM 4.1, 6.4).
pub fn names_told()
    ensures selected { name_tells (begun 1 (suffixes (selected (spot 2)) no_suffixes)) ≡ uses 1 ∷ event.Selects (ident_at 2) ∷ [] }
    ensures selected_later { name_tells (begun 1 (suffixes (applied (one (positional (simple 2)))) (suffixes (selected (spot 3)) no_suffixes))) ≡ uses 1 ∷ uses 2 ∷ [] }
    ensures formal { name_tells (with_args 1 (one (association 2 (simple 3)))) ≡ uses 1 ∷ uses 3 ∷ [] }
    ensures slice { name_tells (with_args 1 (one (between 2 3))) ≡ uses 1 ∷ event.LeftOut 1 ∷ uses 2 ∷ uses 3 ∷ [] }
    ensures slice_by_range { name_tells (with_args 1 (one (positional (range_of 2)))) ≡ uses 1 ∷ event.LeftOut 1 ∷ uses 2 ∷ [] }
    ensures constraint { name_onto own_number within.Text true [] (with_args 1 (one (between 2 3))) ≡ uses 1 ∷ uses 2 ∷ uses 3 ∷ [] }
    ensures in_a_profile { mark_onto own_number false [] (with_args 1 (one (between 2 3))) ≡ event.LeftOut 1 ∷ uses 1 ∷ [] }
{}

/// Aggregates, `null`, and quantified expressions (Ada RM 4.3, 4.5.8; SPARK RM 6.1.4).
pub fn expressions_told()
    ensures aggregate { group_tells within.Text (association 1 (simple 2)) ≡ event.Name (ident_at 1) manner.Choice ∷ uses 2 ∷ [] }
    ensures null_value { tells_in within.Text (null_at 1) ≡ event.LeftOut 1 ∷ [] }
    ensures null_global { tells_in within.Global (null_at 1) ≡ [] }
    ensures mode_of_global { group_tells within.Global (association 1 (simple 2)) ≡ event.Name (ident_at 2) manner.Aspect ∷ [] }
    ensures quantified { group_tells within.Text (for_all 1 2 3 (simple 1)) ≡ event.Opens scope.Quantified ∷ event.Declares kind.Index (ident_at 1) ∷ uses 2 ∷ uses 3 ∷ event.DeclarationEnds ∷ uses 1 ∷ event.Closes ∷ [] }
{}

/// Loops and their scopes (Ada RM 5.5).
pub fn loops_told()
    ensures parameter { loop_tells (for_in 1 2) ≡ event.Opens scope.Loop ∷ event.Declares kind.LoopParameter (ident_at 1) ∷ uses 2 ∷ event.DeclarationEnds ∷ event.Closes ∷ [] }
    ensures no_parameter { loop_tells forever ≡ [] }
{}

/// Declarations and what is left out of them (Ada RM 3, 6).
pub fn declarations_told()
    ensures variable { declaration_tells region.Body (variable 1 2 3) ≡ event.Declares kind.Object (ident_at 1) ∷ uses 2 ∷ uses 3 ∷ event.DeclarationEnds ∷ [] }
    ensures record_type { declaration_tells region.Body (record_type 1 2 3 4) ≡ event.Declares kind.Type (ident_at 2) ∷ event.Opens scope.Record ∷ event.Declares kind.Component (ident_at 3) ∷ uses 4 ∷ event.Closes ∷ event.DeclarationEnds ∷ [] }
    ensures private_type { declaration_tells region.Private (record_type 1 2 3 4) ≡ event.LeftOut 1 ∷ event.Declares kind.Type (ident_at 2) ∷ event.DeclarationEnds ∷ [] }
    ensures procedure { declaration_tells (region.Visible 0) (procedure 1 2 3 4 no_body) ≡ event.Opens (scope.Subprogram (ident_at 2) false) ∷ event.Declares kind.Parameter (ident_at 3) ∷ uses 4 ∷ event.ParametersEnd mode.In ∷ event.ProfileEnds ∷ event.Closes ∷ [] }
    ensures body_in_a_declaration { declaration_tells (region.Visible 0) (procedure 1 2 3 4 (short_body (decls (variable 5 6 7) no_decls))) ≡ event.LeftOut 1 ∷ event.Opens (scope.Subprogram (ident_at 2) false) ∷ event.Declares kind.Parameter (ident_at 3) ∷ uses 4 ∷ event.ParametersEnd mode.In ∷ event.ProfileEnds ∷ event.Closes ∷ [] }
    ensures nested { declaration_tells region.Body (procedure 1 2 3 4 (short_body (decls (procedure 5 6 7 8 no_body) no_decls))) ≡ event.Opens (scope.Subprogram (ident_at 2) true) ∷ event.Declares kind.Parameter (ident_at 3) ∷ uses 4 ∷ event.ParametersEnd mode.In ∷ event.ProfileEnds ∷ event.LeftOut 5 ∷ event.Closes ∷ [] }
{}

/// Pragmas where they may stand, and where not, and a package with a private part (Ada RM 2.8, 7.1, 10.2.1).
pub fn packages_told()
    ensures mode_first { pragma_as_onto own_number region.Body true pragma_kinds.Mode [] (bare_pragma 1) ≡ [] }
    ensures mode_later { pragma_as_onto own_number region.Body false pragma_kinds.Mode [] (bare_pragma 1) ≡ event.LeftOut 1 ∷ [] }
    ensures pure_first { pragma_as_onto own_number (region.Visible 0) true pragma_kinds.Category [] (bare_pragma 1) ≡ [] }
    ensures pure_body { pragma_as_onto own_number region.Body true pragma_kinds.Category [] (bare_pragma 1) ≡ event.LeftOut 1 ∷ [] }
    ensures check { pragma_as_onto own_number (region.Visible 0) true pragma_kinds.Check [] (bare_pragma 1) ≡ event.LeftOut 1 ∷ [] }
    ensures with_private_part { events own_number (package_file 1 (variable 2 3 4) (variable 5 6 7) 8) ≡ event.Opens (scope.Package (ident_at 1)) ∷ event.Declares kind.Object (ident_at 2) ∷ uses 3 ∷ uses 4 ∷ event.DeclarationEnds ∷ event.ListEnds ∷ event.Declares kind.Object (ident_at 5) ∷ uses 6 ∷ uses 7 ∷ event.DeclarationEnds ∷ event.ListEnds ∷ event.EndName (ident_at 8) ∷ [] }
{}
