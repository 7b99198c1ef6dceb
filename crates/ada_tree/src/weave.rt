//! A derivation together with the tokens that it takes on the way.

ghost use Rattle.std.specs.Prelude.{◌≡◌, ◌∷◌, [], ◌++◌, IfOk, OnOk};
ghost use Rattle.grammar_table.specs.Answers.{start};
ghost use Rattle.grammar_table.specs.Parses.{right_of};
ghost use Rattle.grammar_table.specs.Productions.{productions};
ghost use Rattle.ada_tree.specs.Moves.{after_phrase, takes_before, woven};

use grammar_table::{Grammar, Nonterminal, Starved, Symbol};
use sqlite_items::Items;
use std::alloc::Global;
use tree_parts::Chain;

/// A step of a parse.
#[derive(Clone, Copy)]
pub enum Move {
    /// A token is taken.
    Take,
    /// A phrase is replaced by the right side of this production.
    Expand(u8),
}

/// Symbols that are to be read, the next one first.
type Symbols = Chain<Symbol>;

/// Puts symbols in front.
fn put_all(right: &[Symbol], symbols: &mut Symbols) -> Result<(), Starved>
    ensures { OnOk result (symbols.new ≡ right.now ++ symbols.old) }
{
    let mut left = right.len();
    while left > 0 {
        left -= 1;
        symbols.put_first(right[left])?;
    }
    Ok(())
}

/// Takes the tokens that stand in front, and the phrase after them.
fn take_tokens(symbols: &mut Symbols, moves: &mut Items<Move>) -> Result<(), Starved>
    ensures symbols { OnOk result (symbols.new ≡ after_phrase symbols.old) }
    ensures moves { OnOk result (moves.new ≡ moves.old ++ takes_before symbols.old) }
{
    while let Some(Symbol::Token(_, _)) = symbols.take_first() {
        moves.push(Move::Take)?;
    }
    Ok(())
}

/// The most symbols that may stand before a parse. Each subprogram that is open leaves six, so this is what 500 of them leave
/// with one that holds nothing in the last. A level of the grammar leaves at most ten, so 200 of them leave less.
const MOST_SYMBOLS: usize = 3_001;

/// Replaces the next phrase by the right side of a production, after the tokens before it.
fn replace(
    grammar: &Grammar,
    production: u8,
    symbols: &mut Symbols,
    moves: &mut Items<Move>,
) -> Result<(), Starved>
    ensures symbols { OnOk result (symbols.new ≡ right_of productions production ++ after_phrase symbols.old) }
    ensures moves { OnOk result (moves.new ≡ moves.old ++ takes_before symbols.old ++ Move.Expand production ∷ []) }
{
    if symbols.len() > MOST_SYMBOLS {
        return Err(Starved);
    }
    take_tokens(symbols, moves)?;
    moves.push(Move::Expand(production))?;
    put_all(grammar.right_of(production), symbols)
}

/// The moves of the parse whose productions are these.
pub fn weave(alloc: Global, grammar: &Grammar, used: &[u8]) -> Result<Items<Move>, Starved>
    ensures { IfOk result (λ moves. moves ≡ woven productions used.now start) }
{
    let mut symbols = Symbols::new(alloc);
    symbols.put_first(Symbol::Phrase(Nonterminal::File))?;
    let mut moves = Items::new(alloc);
    for production in used {
        replace(grammar, *production, &mut symbols, &mut moves)?;
    }
    take_tokens(&mut symbols, &mut moves)?;
    Ok(moves)
}
