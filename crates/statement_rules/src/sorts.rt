//! The pragmas of a loop's group, and where they may stand (SPARK RM 5.5.3).

ghost use Rattle.std.specs.Prelude.{◌≡◌};
ghost use Rattle.statement_rules.specs.Arounds.{around_of};
ghost use Rattle.statement_rules.specs.Bodies.{sort_as, stage_as};
ghost use Rattle.statement_typing.specs.Statements.{is_demand, is_variant, may_stand, sort_of, sort_of_pragma, stage_after};
ghost use Rattle.syntax_view.specs.View.{args_of, expr, stmt};

use crate::around::Around;
use crate::stages::Stage;
use ada_syntax::{Action, Arg, Expr as Tree, Stmt};
use name_numbers::Word;

/// What a statement is to a loop's group: a pragma of the group, with its arguments, or another statement.
#[derive(Clone, Copy)]
pub enum Sort<'a> {
    Invariant(&'a [Arg<Tree>]),
    Variant(&'a [Arg<Tree>]),
    Another,
}

fn sort_of_pragma<'a>(word: Option<Word>, args: &'a [Arg<Tree>]) -> Sort<'a>
    ensures { sort_as result ≡ sort_of_pragma word (args_of expr args.now) }
{
    match word {
        Some(Word::LoopInvariant) => Sort::Invariant(args),
        Some(Word::LoopVariant) => Sort::Variant(args),
        _ => Sort::Another,
    }
}

/// What a statement is to the group of the loop that it stands in.
#[tactic(auto, using(syntax_view::proofs::Forms::stmt_has))]
pub fn sort_of<'a>(around: &Around, statement: &'a Stmt) -> Sort<'a>
    ensures { sort_as result ≡ sort_of (around_of around.now) (stmt statement.now) }
{
    match statement.action.get() {
        Action::Pragma(pragma) => {
            let word = around.scope.word(pragma.name.from);
            sort_of_pragma(word, pragma.args.as_slice())
        }
        _ => Sort::Another,
    }
}

impl<'a> Sort<'a> {
    /// Whether it is a pragma of the group.
    pub fn is_demand(self) -> bool
        ensures { result ≡ is_demand (sort_as self.entry) }
    {
        match self {
            Sort::Invariant(_) | Sort::Variant(_) => true,
            Sort::Another => false,
        }
    }

    /// Whether it is a loop variant.
    pub fn is_variant(self) -> bool
        ensures { result ≡ is_variant (sort_as self.entry) }
    {
        match self {
            Sort::Variant(_) => true,
            Sort::Invariant(_) | Sort::Another => false,
        }
    }
}

impl Stage {
    /// Whether a pragma of the group may stand here: in the one group, which has one variant at most.
    pub fn may_stand(self, sort: Sort) -> bool
        ensures { result ≡ may_stand (stage_as self) (sort_as sort.entry) }
    {
        match self {
            Stage::BeforeGroup => true,
            Stage::InGroup(with_variant) => !(with_variant && sort.is_variant()),
            Stage::AfterGroup => false,
        }
    }

    /// How far the statements are after one more.
    pub fn after(self, sort: Sort) -> Stage
        ensures { stage_as result ≡ stage_after (stage_as self) (sort_as sort.entry) }
    {
        match self {
            Stage::AfterGroup => Stage::AfterGroup,
            Stage::BeforeGroup => {
                if sort.is_demand() {
                    Stage::InGroup(sort.is_variant())
                } else {
                    Stage::BeforeGroup
                }
            }
            Stage::InGroup(with_variant) => {
                if sort.is_demand() {
                    Stage::InGroup(with_variant || sort.is_variant())
                } else {
                    Stage::AfterGroup
                }
            }
        }
    }
}
