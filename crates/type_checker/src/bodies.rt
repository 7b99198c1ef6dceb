//! The statements of a subprogram's body (Ada RM 6.3).

ghost use Rattle.std.specs.Prelude.{◌≡◌, ◌++◌, IfOk, OnOk, length};
ghost use Rattle.program_scope.specs.Homes.{home_of};
ghost use Rattle.statement_typing.specs.Files.{place_at, scope};
ghost use Rattle.statement_typing.specs.Numbers.{in_decls, in_stmts, loops_in, turns_in};
ghost use Rattle.statement_typing.specs.Statements.{ended, stmts};
ghost use Rattle.statement_typing.specs.Tellings as tellings;
ghost use Rattle.statement_typing.specs.Units as units;
ghost use Rattle.syntax_view.specs.View.{decl, decls_of, heading_of, stmt, stmts_of};
ghost use Rattle.type_base.specs.declared.seen.Moment.TheVariants as moment;

use crate::Starved;
use crate::numbering::BodyNumbers;
use ada_syntax::{Body, Decl, Sub};
use first_told::tell;
use program_scope::Home;
use routine_reader::returns_of;
use sqlite_items::Items;
use statement_reader::stmts;
use statement_rules::{Around, ended};
use statement_typing::Draft;
use std::alloc::Global;
use subprogram_draft::with_body;
use type_base::{Moment, Refusal, World};
use typed_units::Stmt;
use typing_rules::Found;

/// What is found of a body's statements, and of how they end.
#[derive(Drop)]
struct StatementsFound {
    pub statements: Found<Items<Stmt>>,
    pub ended: Found<bool>,
}

fn statements_found(
    alloc: Global,
    home: &Home,
    world: &World,
    sub: &Sub<Decl>,
    body: &Body<Decl>,
) -> Result<StatementsFound, Starved>
    ensures statements { IfOk result (λ f. f.statements ≡ stmts (units.around (home_of home.now) (units.returns_of (scope (home_of home.now) moment.Elsewhere world.now) (heading_of sub.now).result) world.now) (stmts_of stmt body.now.statements)) }
    ensures ended { IfOk result (λ f. f.ended ≡ ended (scope (home_of home.now) moment.Elsewhere world.now) (place_at (home_of home.now) sub.now.name) (units.returns_of (scope (home_of home.now) moment.Elsewhere world.now) (heading_of sub.now).result) (stmts_of stmt body.now.statements)) }
{
    let scope = home.scope(Moment::Elsewhere, world);
    let returns = returns_of(alloc, &scope, &sub.result)?;
    let around = Around {
        scope: &scope,
        returns: &returns,
        inner: None,
    };
    let statements = stmts(alloc, &around, &body.statements)?;
    let ended = ended(&scope, home.place_at(sub.name), &returns, &body.statements);
    Ok(StatementsFound { statements, ended })
}

/// The statements of a body whose declarations are in the draft. `Err` where memory was refused.
pub(crate) fn with_statements(
    alloc: Global,
    home: &Home,
    routine: u32,
    sub: &Sub<Decl>,
    body: &Body<Decl>,
    numbers: &BodyNumbers,
    draft: &mut Draft,
    told: Option<Refusal>,
) -> Result<Option<Refusal>, Starved>
    requires turns { numbers.now.turns ≡ length (turns_in (stmts_of stmt body.now.statements)) }
    requires indexes { numbers.now.indexes ≡ length (in_decls (decls_of decl body.now.declarations) ++ in_stmts (stmts_of stmt body.now.statements)) }
    requires loops { numbers.now.loops ≡ length (loops_in (stmts_of stmt body.now.statements)) }
    ensures draft { OnOk result (draft.new ≡ units.with_statements (home_of home.now) routine (heading_of sub.now) (decls_of decl body.now.declarations) (stmts_of stmt body.now.statements) draft.old) }
    ensures told { IfOk result (λ t. t ≡ tellings.statements_told (home_of home.now) (heading_of sub.now) (stmts_of stmt body.now.statements) draft.old told) }
{
    let found = statements_found(alloc, home, &draft.world, sub, body)?;
    let StatementsFound { statements, ended } = found;
    let told = tell(tell(told, &statements), &ended);
    with_body(
        alloc,
        home.place_at(sub.name),
        routine,
        numbers.turns,
        numbers.indexes,
        numbers.loops,
        statements,
        draft,
    )?;
    Ok(told)
}
