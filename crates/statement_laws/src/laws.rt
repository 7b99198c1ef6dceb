//! Which refusal a declaration or a statement gives.

ghost use Rattle.std.specs.Prelude.{◌≡◌, ℕ, Bool, Option, Some, None, List, []};
ghost use Rattle.ada_values.specs.declared.place.Place.{Place};
ghost use Rattle.ada_values.specs.declared.scalars.Scalar.{Scalar};
ghost use Rattle.front_codes.specs.declared.codes.Code.{Code};
ghost use Rattle.front_codes.specs.declared.codes.Refusal.{Refusal};
ghost use Rattle.name_numbers.specs.declared.words.Word.{Word};
ghost use Rattle.syntax_view.specs.Trees as tree;
ghost use Rattle.type_base.specs.Faults.{First};
ghost use Rattle.type_base.specs.Scope.{Scope};
ghost use Rattle.type_base.specs.declared.seen.Want.{Want};
ghost use Rattle.type_base.specs.declared.seen.Want.TheVariants as want;
ghost use Rattle.type_base.specs.declared.world.World.{World};
ghost use Rattle.typing_rules.specs.Fits.{found_fault, found_then};
ghost use Rattle.typing_rules.specs.declared.prefix.Found.TheVariants.{Is};
ghost use Rattle.statement_typing.specs.declared.draft.Draft.{Draft};
ghost use Rattle.statement_typing.specs.declared.parts.Answer.TheVariants as answers;
ghost use Rattle.statement_typing.specs.Asked.{place_of, range_faults, range_seen};
ghost use Rattle.statement_typing.specs.Aspects.{aspects_faults, aspects_found, faults_in, global_items, item_condition, item_condition_faults, stated, stated_faults};
ghost use Rattle.statement_typing.specs.Checks.{all_of};
ghost use Rattle.statement_typing.specs.Choices.{choice_faults, choice_seen};
ghost use Rattle.statement_typing.specs.Files.{File, Home};
ghost use Rattle.statement_typing.specs.Objects.{entered_by, initial, initial_faults, named_number, object_faults_as, object_subtype, object_subtype_faults, object_value, present, settled_value};
ghost use Rattle.statement_typing.specs.Pragmas.{checked, checked_faults, ways, ways_faults};
ghost use Rattle.statement_typing.specs.Routines.{profile, profile_faults};
ghost use Rattle.statement_typing.specs.Statements.{Around, Stage, body_faults, body_onto, empty, stmt, stmt_faults, stmts, stmts_faults};
ghost use Rattle.statement_typing.specs.Subtypes.{index_range, index_range_faults, indicated, indicated_faults, part, part_faults, part_subtype, part_subtype_faults, range_in, range_in_faults, static_range, static_range_faults};
ghost use Rattle.statement_typing.specs.Types.{definition, definition_faults, indexes, indexes_faults};
ghost use Rattle.statement_typing.specs.Units.{answer, files_declared, program_faults, program_of, start};

/// What is refused of a range or of a subtype indication is the first of all its broken rules, by its place and its rule, in each scope;
/// and nothing is refused where no rule is broken.
pub fn indications_are_first()
    ensures ranges { (c : Scope) (r : Code) (w : Want) (g : tree.Range) → First (found_fault (range_seen c r w g)) (range_faults c r w g) }
    ensures constraints { (c : Scope) (t : ℕ) (x : Scalar) (b : tree.Bounds) → First (found_fault (range_in c t x b)) (range_in_faults c t x b) }
    ensures static_ranges { (c : Scope) (w : Want) (r : tree.Range) → First (found_fault (static_range c w r)) (static_range_faults c w r) }
    ensures indexes { (c : Scope) (i : ℕ) (r : tree.Range) → First (found_fault (index_range c i r)) (index_range_faults c i r) }
    ensures indications { (c : Scope) (r : Code) (s : tree.SubInd) → First (found_fault (indicated c r s)) (indicated_faults c r s) }
    ensures parts { (c : Scope) (s : tree.SubInd) → First (found_fault (part_subtype c s)) (part_subtype_faults c s) }
{}

/// The same of what declarations are made of: definitions of types, indexes of arrays, subtypes and values of objects, named numbers,
/// profiles, and aspects.
pub fn declarations_are_first()
    ensures indexes { (c : Scope) (i : tree.Index) → First (found_fault (indexes c i)) (indexes_faults c i) }
    ensures definitions { (c : Scope) (t : tree.TypeForm) → First (found_fault (definition c t)) (definition_faults c t) }
    ensures subtypes { (c : Scope) (p : Place) (s : tree.SubInd) → First (found_fault (object_subtype c p s)) (object_subtype_faults c p s) }
    ensures values { (c : Scope) (p : Place) (b : Bool) (w : Want) (k : ℕ) (e : Option tree.Expr) → First (found_fault (initial c p b w k e)) (initial_faults c p b w k e) }
    ensures numbers { (c : Scope) (e : tree.Expr) → First (found_fault (part c want.Free e (named_number c.world (place_of c e)))) (part_faults c want.Free e (named_number c.world (place_of c e))) }
    ensures local_objects { (h : Home) (q : ℕ) → h.own ≡ Some q → (p : Place) (b : Bool) (s : tree.SubInd) (v : Option tree.Expr) (d : Draft) → First (found_fault (object_value h p b v (object_subtype (present h d) p s) (entered_by (object_subtype (present h d) p s) d))) (object_faults_as h p b (Some s) v d) }
    ensures package_objects { (h : Home) → h.own ≡ None → (p : Place) (b : Bool) (s : tree.SubInd) (v : Option tree.Expr) (d : Draft) → First (found_fault (found_then (object_value h p b v (object_subtype (present h d) p s) (entered_by (object_subtype (present h d) p s) d)) (settled_value (present h (entered_by (object_subtype (present h d) p s) d).draft) v))) (object_faults_as h p b (Some s) v d) }
    ensures profiles { (c : Scope) (h : tree.Heading) → First (found_fault (profile c h)) (profile_faults c h) }
    ensures globals { (h : Home) (c : Scope) (i : tree.Item) → First (found_fault (all_of (global_items h c i))) (faults_in (global_items h c i)) }
    ensures aspect_values { (h : Home) (w : World) (p : Place) (a : Option Word) (i : Option tree.Item) → First (found_fault (stated h w p a i)) (stated_faults h w p a i) }
    ensures aspects { (h : Home) (w : World) (first : Bool) (ns : List ℕ) (xs : List tree.Aspect) → First (found_fault (all_of (aspects_found h w first ns xs))) (aspects_faults h w first ns xs) }
{}

/// The same of statements: conditions, the arguments of pragmas, choices, each statement, lists of them, and the body of a loop.
pub fn statements_are_first()
    ensures conditions { (c : Scope) (r : Code) (i : tree.Item) → First (found_fault (item_condition c r i)) (item_condition_faults c r i) }
    ensures assertions { (w : ℕ → Option Word) (c : Scope) (p : Place) (xs : tree.Args) → First (found_fault (checked w c p xs)) (checked_faults w c p xs) }
    ensures variants { (w : ℕ → Option Word) (c : Scope) (p : Place) (xs : tree.Args) → First (found_fault (ways w c p xs)) (ways_faults w c p xs) }
    ensures choices { (c : Scope) (w : Want) (r : tree.Range) → First (found_fault (choice_seen c w r)) (choice_faults c w r) }
    ensures each { (a : Around) (s : tree.Stmt) → First (found_fault (stmt a s)) (stmt_faults a s) }
    ensures lists { (a : Around) (ss : tree.Stmts) → First (found_fault (stmts a ss)) (stmts_faults a ss) }
    ensures bodies { (a : Around) (t : Stage) (ss : tree.Stmts) → First (found_fault (body_onto a t (Is empty) ss)) (body_faults a t ss) }
{}

/// A program in which no rule is broken is typed, and what is refused of another is the first of all its broken rules.
pub fn programs_are_first()
    ensures typed { (fs : List File) (order : List ℕ) → program_faults fs order ≡ [] → answer fs order ≡ answers.Typed (program_of (files_declared fs order (start fs))) }
    ensures refused { (fs : List File) (order : List ℕ) (f : Refusal) → answer fs order ≡ answers.Refused f → First (Some f) (program_faults fs order) }
{}
