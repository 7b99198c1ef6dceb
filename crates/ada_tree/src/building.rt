//! The tree of a derivation.

ghost use Rattle.std.specs.Prelude.{◌≡◌, ◌∷◌, [], ◌+◌, ◌≤◌, IfOk, drop, length};
ghost use Rattle.grammar_table.specs.Answers.{Derives, terminals};
ghost use Rattle.grammar_table.specs.Productions.{productions};
ghost use Rattle.ada_tree.specs.Moves.{takes};
ghost use Rattle.ada_tree.specs.Trees.{Spells, parts_of, with_move};

use crate::made::{apply, rule_at};
use crate::weave::{Move, weave};
use ada_syntax::SourceUnit;
use ada_text::{Token, TokenList};
use grammar_table::{Derivation, Starved, spark_grammar};
use sqlite_items::Items;
use std::alloc::Global;
use tree_parts::Parts;

/// Puts the part of a move in front of those after it. Answers how many tokens are left before it.
fn put_move(
    alloc: Global,
    last: Move,
    tokens: &[Token],
    left: usize,
    parts: &mut Parts,
) -> Result<usize, Starved>
    requires some { takes (last ∷ []) ≤ left }
    requires within { left ≤ length tokens.now }
    ensures left { IfOk result (λ n. n + takes (last ∷ []) ≡ left) }
    ensures parts { IfOk result (λ n. parts.new ≡ with_move last (drop n tokens.now) parts.old) }
{
    match last {
        Move::Take => {
            let before = left - 1;
            parts.put_token(tokens[before])?;
            Ok(before)
        }
        Move::Expand(production) => {
            apply(alloc, rule_at(production), parts)?;
            Ok(left)
        }
    }
}

/// The parts of these moves, from the last to the first.
fn parts_of(alloc: Global, moves: Items<Move>, tokens: &[Token]) -> Result<Parts, Starved>
    requires { takes moves ≡ length tokens.now }
    ensures { IfOk result (λ parts. parts ≡ parts_of moves tokens.now) }
{
    let mut moves = moves;
    let mut parts = Parts::new(alloc);
    let mut left = tokens.len();
    while let Some(last) = moves.pop() {
        left = put_move(alloc, last, tokens, left, &mut parts)?;
    }
    Ok(parts)
}

/// The tree of a derivation of these tokens. `Starved` comes where memory was refused, and where more than 500 subprograms
/// stand one in another, or fewer with other nesting around them or in them.
pub fn build(
    alloc: Global,
    derivation: &Derivation,
    tokens: &TokenList,
) -> Result<SourceUnit, Starved>
    requires { Derives productions (terminals tokens.now) derivation.now.productions }
    ensures { IfOk result (λ unit. Spells unit tokens.now) }
{
    let moves = weave(alloc, &spark_grammar(), derivation.productions.as_slice())?;
    let mut parts = parts_of(alloc, moves, tokens.as_slice())?;
    let tree = parts.unit().source_unit(alloc)?;
    Ok(tree)
}
