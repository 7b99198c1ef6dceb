//! The modes of `Global` (SPARK RM 6.1.4).

ghost use Rattle.std.specs.Prelude.{◌≡◌, List, []};
ghost use Rattle.ada_syntax.specs.declared.expressions.ArgChoice.TheVariants as choice';
ghost use Rattle.ada_text.specs.declared.token.Span.{Span};
ghost use Rattle.program_scope.specs.Homes.{home_of};
ghost use Rattle.routine_rules.specs.Standing.{HasModes};
ghost use Rattle.statement_typing.specs.Aspects.{choice_mode, has_mode, mode_word, modes_after};
ghost use Rattle.syntax_view.specs.Trees as tree;
ghost use Rattle.syntax_view.specs.View.{choice_of, expr, name_of};
ghost use Rattle.typed_units.specs.declared.programs.GlobalMode.{GlobalMode as Mode};

use ada_syntax::{ArgChoice, Expr as Tree, ExprNode, Item, ItemForm, Name};
use name_numbers::Word;
use program_scope::Home;
use typed_units::GlobalMode;

fn mode_word(word: Option<Word>) -> Option<GlobalMode>
    ensures { result ≡ mode_word word }
{
    match word {
        Some(Word::Input) => Some(GlobalMode::Input),
        Some(Word::Output) => Some(GlobalMode::Output),
        Some(Word::InOut) => Some(GlobalMode::InOut),
        _ => None,
    }
}

fn name_mode(home: &Home, name: &Name<Tree>) -> Option<GlobalMode>
    ensures { (s t : Span) → result ≡ choice_mode (home_of home.now) (tree.part (tree.item s (tree.plain (tree.at t (tree.name (name_of expr name.now)))))) }
{
    match name.suffixes.as_slice() {
        [] => mode_word(home.file.word(name.first.from)),
        [_, ..] => None,
    }
}

#[tactic(auto, using(syntax_view::proofs::Forms::expr_has))]
fn item_mode(home: &Home, item: &Item<Tree>) -> Option<GlobalMode>
    ensures { result ≡ choice_mode (home_of home.now) (choice_of expr (choice'.Item item.now)) }
{
    match item.form.get() {
        ItemForm::Plain(plain) => match plain.node.get() {
            ExprNode::Name(name) => name_mode(home, name),
            _ => None,
        },
        _ => None,
    }
}

/// The mode that the choice of an association is.
pub(crate) fn choice_mode(home: &Home, choice: &ArgChoice<Tree>) -> Option<GlobalMode>
    ensures { result ≡ choice_mode (home_of home.now) (choice_of expr choice.now) }
{
    match choice {
        ArgChoice::Item(item) => item_mode(home, item),
        ArgChoice::Others => None,
        ArgChoice::Range(_, _) => None,
    }
}

/// The modes that have stood so far.
#[derive(Clone, Copy)]
pub(crate) struct Modes {
    input: bool,
    output: bool,
    in_out: bool,
}

impl Modes {
    /// None so far.
    pub(crate) fn none() -> Modes
        ensures { HasModes result [] }
    {
        Modes {
            input: false,
            output: false,
            in_out: false,
        }
    }

    /// Whether a mode has stood.
    pub(crate) fn has(self, mode: GlobalMode) -> bool
        ensures { (modes : List Mode) → HasModes self modes → result ≡ has_mode mode modes }
    {
        match mode {
            GlobalMode::Input => self.input,
            GlobalMode::Output => self.output,
            GlobalMode::InOut => self.in_out,
        }
    }

    /// With one more, where an association has one.
    pub(crate) fn after(self, mode: Option<GlobalMode>) -> Modes
        ensures { (modes : List Mode) → HasModes self modes → HasModes result (modes_after modes mode) }
    {
        match mode {
            None => self,
            Some(GlobalMode::Input) => Modes {
                input: true,
                ..self
            },
            Some(GlobalMode::Output) => Modes {
                output: true,
                ..self
            },
            Some(GlobalMode::InOut) => Modes {
                in_out: true,
                ..self
            },
        }
    }
}
