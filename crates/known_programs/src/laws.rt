//! When a declaration or a program is accepted or refused.

ghost use Rattle.std.specs.Prelude.{◌≡◌, ℕ, List, [], ◌∷◌};
ghost use Rattle.syntax_view.specs.Trees as tree;
ghost use Rattle.statement_typing.specs.declared.draft.Draft.{Draft};
ghost use Rattle.known_declarations.specs.Declared.{IsReady};
ghost use Rattle.statement_typing.specs.Files.{File, Home};
ghost use Rattle.statement_typing.specs.Units.{answer, declared};
ghost use Rattle.statement_typing.specs.declared.parts.Answer.TheVariants as answers;
ghost use Rattle.typed_units.specs.declared.programs.Program.{Program};
ghost use Rattle.declaration_relations.specs.Programs.{IsProgram};
ghost use Rattle.known_programs.specs.Declared.{DeclDeclared, ProgramDeclared, SubDeclared, UnitDeclared};
ghost use Rattle.known_programs.specs.Sample.{sample};
ghost use Rattle.declaration_relations.specs.Found.{DeclFound, ProgramFound, SubFound, UnitFound};

/// Where no declaration is refused that a declaration, a unit or a program names, each part of it is accepted or refused: none is one of
/// which nothing can be said. The world that the declaration makes of one in which it may be read is such a world again, so of a program
/// nothing is presumed but that its names are declared, and the results of its functions aren't refused. A procedure with an object and
/// an assignment is such a program.
pub fn declarations_known_where_declared()
    ensures declarations { (h : Home) (x : tree.Decl) (d : Draft) → IsReady d.world → DeclDeclared h x d → DeclFound h x d }
    ensures worlds { (h : Home) (x : tree.Decl) (d : Draft) → IsReady d.world → DeclDeclared h x d → IsReady (declared h x d).world }
    ensures subprograms { (h : Home) (s : tree.Sub) (d : Draft) → IsReady d.world → SubDeclared h s d → SubFound h s d }
    ensures units { (h : Home) (u : tree.UnitForm) (d : Draft) → IsReady d.world → UnitDeclared h u d → UnitFound h u d }
    ensures programs { (fs : List File) (order : List ℕ) → ProgramDeclared fs order → ProgramFound fs order }
    ensures sample { ProgramDeclared (sample ∷ []) (0 ∷ []) }
{}

/// So a program whose names are all declared, and that is answered by its typed program, is that typed program by the rules of the language.
pub fn declared_programs_obey_the_rules()
    ensures { (fs : List File) (order : List ℕ) (p : Program) → ProgramDeclared fs order → answer fs order ≡ answers.Typed p → IsProgram fs order p }
{}
