//! Laws.

ghost use Rattle.std.specs.Prelude.{◌≡◌, ℕ, true, [], ◌++◌, List, length};
ghost use Rattle.ada_values.specs.declared.place.Place.{Place};
ghost use Rattle.typed_units.specs.declared.statements.Stmt.{Stmt};
ghost use Rattle.syntax_view.specs.Trees as tree;
ghost use Rattle.typing_rules.specs.declared.prefix.Found.{Found};
ghost use Rattle.statement_typing.specs.declared.draft.Draft.{Draft};
ghost use Rattle.statement_typing.specs.Aspects.{aspects_found};
ghost use Rattle.statement_typing.specs.Files.{Home};
ghost use Rattle.statement_typing.specs.Numbers.{in_contract, in_decls, in_stmts, loops_in, turns_in};
ghost use Rattle.statement_typing.specs.Units.{contract_home, with_body, with_contract};
ghost use Rattle.subprogram_draft.specs.Counted.{body_with, contract_with};

/// Contracts and bodies go in by the counts of what their text has.
pub fn counts()
    ensures contract { (h : Home) (q : ℕ) (s : tree.Heading) (d : Draft)
        → with_contract h q s d
        ≡ contract_with q (aspects_found (contract_home h q s) d.world true [] s.aspects) (length (in_contract h.file.word s)) d }
    ensures body { (p : Place) (q : ℕ) (ds : tree.Decls) (ts : tree.Stmts) (f : Found (List Stmt)) (d : Draft)
        → with_body p q ds ts f d
        ≡ body_with p q (length (turns_in ts)) (length (in_decls ds ++ in_stmts ts)) (length (loops_in ts)) f d }
{}
