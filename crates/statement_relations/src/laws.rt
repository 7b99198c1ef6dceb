//! What accepted statements obey.

ghost use Rattle.std.specs.Prelude.{◌≡◌, List, []};
ghost use Rattle.statement_relations.specs.Does.{AllDo, Does};
ghost use Rattle.statement_typing.specs.Statements.{Around, stmt, stmts};
ghost use Rattle.syntax_view.specs.Trees as tree;
ghost use Rattle.typed_units.specs.declared.statements.Stmt.{Stmt};
ghost use Rattle.typing_rules.specs.declared.prefix.Found.TheVariants.{Is};

/// A statement that is accepted obeys the rules of the language, wherever it stands: the typed statement that it is is built up from
/// its parts by these rules alone, of which each has a line. The same of lists of statements.
pub fn accepted_statements_obey_the_rules()
    ensures statements { (a : Around) (s : tree.Stmt) (x : Stmt) → stmt a s ≡ Is x → Does a s x }
    ensures lists { (a : Around) (ss : tree.Stmts) (xs : List Stmt) → stmts a ss ≡ Is xs → AllDo a [] ss xs }
{}
