//! When a statement is accepted or refused.

ghost use Rattle.std.specs.Prelude.{None};
ghost use Rattle.syntax_view.specs.Trees as tree;
ghost use Rattle.typing_rules.specs.Cases.{id, num};
ghost use Rattle.statement_typing.specs.Cases.{around, assign, between, loop_over};
ghost use Rattle.statement_typing.specs.Statements.{Around, nothing, stmt, stmts};
ghost use Rattle.typing_laws.specs.Declared.{IsSound};
ghost use Rattle.known_statements.specs.Declared.{IsFound, ReturnsKnown, StmtDeclared, StmtsDeclared};

/// Where no declaration is refused that a statement names, it is accepted or refused: it is never one of which nothing can be said.
/// In a function this takes that its result stands in the world. A loop with an assignment, of the worked cases, is such a statement.
pub fn statements_known_where_declared()
    ensures statements { (a : Around) → IsSound a.scope.world → ReturnsKnown a.scope.world a.returns → (s : tree.Stmt) → StmtDeclared a s → IsFound (stmt a s) }
    ensures lists { (a : Around) → IsSound a.scope.world → ReturnsKnown a.scope.world a.returns → (ss : tree.Stmts) → StmtsDeclared a ss → IsFound (stmts a ss) }
    ensures declared { StmtsDeclared (around nothing None) (loop_over 500 190 (between (num 300 1) (num 400 5)) (assign 160 (id 261))) }
{}
