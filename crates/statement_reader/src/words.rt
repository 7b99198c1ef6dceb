//! The words that choices are, as `Check` and `Increases` in pragmas.

ghost use Rattle.std.specs.Prelude.{◌≡◌};
ghost use Rattle.statement_reader.specs.Words.{item_word, word_in};
ghost use Rattle.statement_rules.specs.Arounds.{around_of};
ghost use Rattle.statement_typing.specs.Pragmas.{choice_word};
ghost use Rattle.syntax_view.specs.View.{choice_of, expr, item_of};

use ada_syntax::{ArgChoice, Expr as Tree, ExprNode as TreeNode, Item, ItemForm};
use name_numbers::Word;
use statement_rules::Around;

/// The word of an expression that is an identifier.
#[tactic(auto, using(syntax_view::proofs::Forms::expr_has))]
fn word_in(around: &Around, e: &Tree) -> Option<Word>
    ensures { result ≡ word_in (around_of around.now).word (expr e.now) }
{
    match e.node.get() {
        TreeNode::Name(name) => match name.suffixes.as_slice() {
            [] => around.scope.word(name.first.from),
            [_, ..] => None,
        },
        _ => None,
    }
}

fn item_word(around: &Around, item: &Item<Tree>) -> Option<Word>
    ensures { result ≡ item_word (around_of around.now).word (item_of expr item.now) }
{
    match item.form.get() {
        ItemForm::Plain(e) => word_in(around, e),
        ItemForm::If(_, _) | ItemForm::Quantified(_, _, _, _) => None,
    }
}

/// The word of a choice that is an identifier.
#[tactic(auto, using(crate::proofs::Read::choice_is))]
pub(crate) fn choice_word(around: &Around, choice: &ArgChoice<Tree>) -> Option<Word>
    ensures { result ≡ choice_word (around_of around.now).word (choice_of expr choice.now) }
{
    match choice {
        ArgChoice::Item(item) => item_word(around, item),
        ArgChoice::Others | ArgChoice::Range(_, _) => None,
    }
}
