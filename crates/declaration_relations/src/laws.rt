//! What accepted declarations obey.

ghost use Rattle.std.specs.Prelude.{◌≡◌, ℕ, ℤ, Bool, false, Option, Some, None, List, [], ◌∷◌};
ghost use Rattle.ada_values.specs.declared.place.Place.{Place};
ghost use Rattle.declaration_relations.specs.Declares.{Declares};
ghost use Rattle.declaration_relations.specs.Defines.{Defines};
ghost use Rattle.declaration_relations.specs.Found.{DeclFound, DeclsFound, FilesFound, ProgramFound, UnitFound};
ghost use Rattle.declaration_relations.specs.Indicates.{Indicates, IsInteger, IsWhole};
ghost use Rattle.declaration_relations.specs.Profiles.{HasProfile};
ghost use Rattle.declaration_relations.specs.Programs.{DeclareFiles, DeclaresUnit, IsProgram};
ghost use Rattle.declaration_relations.specs.States.{AllState};
ghost use Rattle.declaration_relations.specs.Values.{Starts};
ghost use Rattle.front_codes.specs.declared.codes.Code.{Code};
ghost use Rattle.statement_typing.specs.declared.draft.Draft.{Draft};
ghost use Rattle.statement_typing.specs.declared.parts.Answer.TheVariants as answers;
ghost use Rattle.statement_typing.specs.declared.parts.Definition.{Definition};
ghost use Rattle.statement_typing.specs.declared.parts.Noted.{Noted};
ghost use Rattle.statement_typing.specs.declared.parts.Profile.{Profile};
ghost use Rattle.statement_typing.specs.declared.parts.Stated.{Stated};
ghost use Rattle.statement_typing.specs.Aspects.{aspects_found};
ghost use Rattle.statement_typing.specs.Cases.{an_object, array_over, aspect, component, draft, home, indexed, item, mark, named_number as number_named, procedure, ranged, skip, subtype_of, type_of, with_body};
ghost use Rattle.statement_typing.specs.Cases as cases;
ghost use Rattle.statement_typing.specs.Checks.{all_of};
ghost use Rattle.statement_typing.specs.Files.{File, Home};
ghost use Rattle.statement_typing.specs.Objects.{initial, named_number, object_subtype};
ghost use Rattle.statement_typing.specs.Routines.{profile};
ghost use Rattle.statement_typing.specs.Subtypes.{indicated, part};
ghost use Rattle.statement_typing.specs.Types.{definition};
ghost use Rattle.statement_typing.specs.Units.{answer, decl_faults, declared, files_declared, files_faults, unit_declared, unit_faults};
ghost use Rattle.syntax_view.specs.Trees as tree;
ghost use Rattle.type_base.specs.Scope.{Scope};
ghost use Rattle.type_base.specs.declared.seen.Want.TheVariants as want;
ghost use Rattle.type_base.specs.declared.world.World.{World};
ghost use Rattle.typed_units.specs.declared.expressions.Expr.{Expr};
ghost use Rattle.typed_units.specs.declared.expressions.Fitted.{Fitted};
ghost use Rattle.typed_units.specs.declared.programs.Program.{Program};
ghost use Rattle.typing_rules.specs.Cases.{id, num};
ghost use Rattle.typing_rules.specs.declared.prefix.Found.TheVariants.{Is};

/// The parts of declarations that are accepted obey the rules of the language, in each scope: what a subtype indication, a definition of
/// a type, a named number, an object's subtype and its value, a profile or a list of aspects gives is built up by these rules alone, of
/// which each has a line.
pub fn accepted_parts_obey_the_rules()
    ensures indications { (c : Scope) (r : Code) (s : tree.SubInd) (n : Noted) → indicated c r s ≡ Is n → Indicates c s n }
    ensures definitions { (c : Scope) (t : tree.TypeForm) (d : Definition) → definition c t ≡ Is d → Defines c t d }
    ensures numbers { (c : Scope) (p : Place) (e : tree.Expr) (n : ℤ) → part c want.Free e (named_number c.world p) ≡ Is n → IsInteger c e n }
    ensures subtypes { (c : Scope) (p : Place) (s : tree.SubInd) (n : Noted) → object_subtype c p s ≡ Is n → IsWhole c s n }
    ensures values { (c : Scope) (p : Place) (b : Bool) (k : ℕ) (v : Option tree.Expr) (f : Option (Fitted Expr)) → initial c p b (want.Subtype k) k v ≡ Is f → Starts c b k v f }
    ensures profiles { (c : Scope) (h : tree.Heading) (p : Profile) → profile c h ≡ Is p → HasProfile c h p }
    ensures aspects { (h : Home) (w : World) (first : Bool) (ns : List ℕ) (aspects : List tree.Aspect) (xs : List Stated) → all_of (aspects_found h w first ns aspects) ≡ Is xs → AllState h w first ns aspects xs }
{}

/// A declaration in which no rule is broken, and of whose parts all is known, obeys the rules of the language: what it enters into the
/// program that is being typed is built up by these rules alone. The same of a unit, and of files in an order.
pub fn accepted_declarations_obey_the_rules()
    ensures declarations { (h : Home) (x : tree.Decl) (d : Draft) → decl_faults h x d ≡ [] → DeclFound h x d → Declares h x d (declared h x d) }
    ensures units { (h : Home) (u : tree.UnitForm) (d : Draft) → unit_faults h u d ≡ [] → UnitFound h u d → DeclaresUnit h u d (unit_declared h u d) }
    ensures files { (fs : List File) (order : List ℕ) (d : Draft) → files_faults fs order d ≡ [] → FilesFound fs order d → DeclareFiles fs order d (files_declared fs order d) }
{}

/// A program that is answered by its typed program, and of whose parts all is known, is that typed program by the rules of the language.
pub fn accepted_programs_obey_the_rules()
    ensures { (fs : List File) (order : List ℕ) (p : Program) → ProgramFound fs order → answer fs order ≡ answers.Typed p → IsProgram fs order p }
{}

/// All is known of the parts of declarations of `statement_typing`'s worked cases, in whose world a byte says what stands there: a subtype,
/// an array type and a record type, an object with a value in a body, one without in a package, a named number, and a procedure with `Global`
/// and with a body; but not of an object of a subtype whose declaration is refused. -- L20, L26, L27, L30
#[tactic(auto, unfolding(name_numbers::specs::Numbers::word_of))]
pub fn parts_of_worked_cases_are_known()
    ensures a_subtype { DeclsFound (home None) (subtype_of 190 (ranged 203 (num 300 1) (num 400 5))) draft }
    ensures an_array_type { DeclsFound (home None) (type_of 190 (array_over (num 300 1) (num 400 5) (mark 503))) draft }
    ensures a_record_type { DeclsFound (home None) (type_of 190 (tree.record_of (component 291 (indexed 574 (num 600 1) (num 700 5)) ∷ []))) draft }
    ensures an_object_in_a_body { DeclsFound (home (Some 0)) (an_object 190 false (mark 203) (Some (id 360))) draft }
    ensures an_object_in_a_package { DeclsFound (home None) (an_object 190 false (mark 205) None) draft }
    ensures a_named_number { DeclsFound (home None) (number_named 190 (id 368)) draft }
    ensures a_procedure { DeclsFound (home None) (cases.declared (procedure 190 [] (aspect 238 (item 383 (id 383)) ∷ []))) draft }
    ensures a_body { DeclsFound (home None) (with_body (procedure 178 [] []) (skip 500)) draft }
    ensures not_of_what_is_refused { DeclsFound (home None) (an_object 190 false (mark 281) None) draft → ⊥ }
{}
