//! What is told of declarations, units and programs.

ghost use Rattle.std.specs.Prelude.{◌≡◌, ◌++◌, ℕ, Option, List};
ghost use Rattle.front_codes.specs.declared.codes.Refusal.{Refusal};
ghost use Rattle.syntax_view.specs.Trees as tree;
ghost use Rattle.type_base.specs.Faults.{First};
ghost use Rattle.statement_typing.specs.declared.draft.Draft.{Draft};
ghost use Rattle.statement_typing.specs.Files.{File, Home};
ghost use Rattle.statement_typing.specs.Tellings.{decl_told, decls_told, file_told, files_told, sub_told, told_answer, unit_told};
ghost use Rattle.statement_typing.specs.Units.{answer, decl_faults, decls_faults, file_faults, files_faults, sub_faults, unit_faults};

/// If what is told before a declaration is the first of the rules that are broken there, then what is told after it is the first of
/// these and of the rules that the declaration breaks; and so for a subprogram, and for declarations one after another.
pub fn declarations_are_told()
    ensures declarations { (h : Home) (x : tree.Decl) (d : Draft) (o : Option Refusal) (fs : List Refusal) → First o fs → First (decl_told h x d o) (fs ++ decl_faults h x d) }
    ensures subprograms { (h : Home) (s : tree.Sub) (d : Draft) (o : Option Refusal) (fs : List Refusal) → First o fs → First (sub_told h s d o) (fs ++ sub_faults h s d) }
    ensures lists { (h : Home) (xs : tree.Decls) (d : Draft) (o : Option Refusal) (fs : List Refusal) → First o fs → First (decls_told h xs d o) (fs ++ decls_faults h xs d) }
{}

/// The same of a unit, of a file, and of files in an order.
pub fn units_are_told()
    ensures units { (h : Home) (u : tree.UnitForm) (d : Draft) (o : Option Refusal) (fs : List Refusal) → First o fs → First (unit_told h u d o) (fs ++ unit_faults h u d) }
    ensures each { (files : List File) (f : Option File) (d : Draft) (o : Option Refusal) (fs : List Refusal) → First o fs → First (file_told files f d o) (fs ++ file_faults files f d) }
    ensures programs { (files : List File) (order : List ℕ) (d : Draft) (o : Option Refusal) (fs : List Refusal) → First o fs → First (files_told files order d o) (fs ++ files_faults files order d) }
{}

/// What is told of the files of a program in their order is what the rules answer of them: the typed program where no rule is broken,
/// and else the first of all rules that are.
pub fn answers_are_told()
    ensures { (files : List File) (order : List ℕ) → told_answer files order ≡ answer files order }
{}
