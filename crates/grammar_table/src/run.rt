//! A run of the grammar over tokens.

ghost use Rattle.std.specs.Prelude.{◌≡◌, ◌≢◌, ◌∷◌, ◌++◌, ℕ, List, [], IfErr, IfOk, IsTrue, ◌↔◌, MatchOption, Some, None, Option, drop, map};
ghost use Rattle.grammar_table.specs.declared.symbols.Effect.{Effect};
ghost use Rattle.grammar_table.specs.declared.symbols.Terminal.{Terminal};
ghost use Rattle.grammar_table.specs.Answers.{Derives, GoesOn};
ghost use Rattle.grammar_table.specs.Parses.{right_of};
ghost use Rattle.grammar_table.specs.Productions.{productions};
ghost use Rattle.grammar_table.specs.Runs.{IsProgress, Reached, Settles, and_then};

use crate::answers::{Derivation, NumberList, Starved, SyntaxFault};
use crate::choices::place;
use crate::grammar::{Grammar, right_of};
use crate::levels::Levels;
use crate::stack::Stack;
use crate::symbols::{Effect, Nonterminal, Symbol, Terminal};
use std::alloc::Global;

/// At most so many levels are open.
const MOST_LEVELS: usize = 200;

/// What became of a token.
pub enum Progress {
    Taken,
    /// Nothing goes on so.
    Unexpected,
    /// It opens level 201.
    TooDeep,
}

/// What is left of a derivation, and what it has used and opened.
#[derive(Drop)]
pub struct Run {
    pub stack: Stack,
    pub levels: Levels,
    pub numbers: NumberList,
}

fn same(a: Terminal, b: Terminal) -> bool
    ensures { IsTrue result ↔ (a ≡ b) }
{
    place(Some(a)) == place(Some(b))
}

/// What a token does, if it is the symbol that stands first.
fn effect_of(first: Option<Symbol>, token: Terminal) -> Option<Effect>
    ensures { MatchOption result ((e : Effect) → first ≢ Some (Symbol.Token token e)) (λ e. first ≡ Some (Symbol.Token token e)) }
{
    match first {
        Some(Symbol::Token(wanted, effect)) => {
            if same(wanted, token) {
                Some(effect)
            } else {
                None
            }
        }
        _ => None,
    }
}

impl Run {
    /// A run that has seen nothing. The error comes where memory was refused.
    pub fn new(alloc: Global) -> Result<Run, Starved>
        ensures { IfOk result (λ r. Reached [] [] r.numbers r.levels r.stack) }
    {
        let mut stack = Stack::new(alloc);
        stack.push(Symbol::Phrase(Nonterminal::File))?;
        Ok(Run {
            stack,
            levels: Levels::new(alloc),
            numbers: NumberList::new(alloc),
        })
    }

    /// Replaces the symbol that stands first by the right side of a production.
    fn expand(&mut self, number: u8) -> Result<(), Starved>
        ensures stack { IfOk result (λ _. self.new.stack ≡ right_of productions number ++ drop 1 self.old.stack) }
        ensures numbers { IfOk result (λ _. self.new.numbers ≡ self.old.numbers ++ number ∷ []) }
        ensures levels { IfOk result (λ _. self.new.levels ≡ self.old.levels) }
    {
        self.stack.pop();
        self.stack.put(right_of(number))?;
        self.numbers.push(number)?;
        Ok(())
    }

    /// Replaces phrases until a token or nothing stands first. `false` where nothing goes on with the next token, or the
    /// end; the error comes where memory was refused.
    fn settle(&mut self, grammar: &Grammar, next: Option<Terminal>) -> Result<bool, Starved>
        ensures { IfOk result
            (λ found. (ts : List Terminal)
            → Reached (and_then ts next) ts self.old.numbers self.old.levels self.old.stack
            → Settles found ts next self.new.numbers self.new.levels self.new.stack) }
    {
        while let Some(Symbol::Phrase(phrase)) = self.stack.first() {
            match grammar.predict(phrase, next) {
                Some(number) => self.expand(number)?,
                None => return Ok(false),
            }
        }
        Ok(true)
    }

    /// Takes a token that stands first and does this to the levels.
    fn take(&mut self, effect: Effect) -> Result<Progress, Starved>
        ensures { IfOk result
            (λ p. (ts : List Terminal) (t : Terminal)
            → Reached (and_then ts (Some t)) ts self.old.numbers self.old.levels (Symbol.Token t effect ∷ self.old.stack)
            → IsProgress p ts t self.new.numbers self.new.levels self.new.stack) }
    {
        self.levels.apply(effect)?;
        if self.levels.count() <= MOST_LEVELS {
            Ok(Progress::Taken)
        } else {
            Ok(Progress::TooDeep)
        }
    }

    /// Reads a token. The error comes where memory was refused.
    pub fn read(&mut self, grammar: &Grammar, token: Terminal) -> Result<Progress, Starved>
        ensures { IfOk result
            (λ p. (ts : List Terminal)
            → Reached (map Some ts) ts self.old.numbers self.old.levels self.old.stack
            → IsProgress p ts token self.new.numbers self.new.levels self.new.stack) }
    {
        if !self.settle(grammar, Some(token))? {
            return Ok(Progress::Unexpected);
        }
        match effect_of(self.stack.first(), token) {
            Some(effect) => {
                self.stack.pop();
                self.take(effect)
            }
            None => Ok(Progress::Unexpected),
        }
    }

    /// Reads the end, after `count` tokens. `Unexpected` where nothing ends so; `Starved` where memory was refused.
    pub fn finish(mut self, grammar: &Grammar, count: u32) -> Result<Derivation, SyntaxFault>
        ensures ok { IfOk result
            (λ d. (ts : List Terminal)
            → Reached (map Some ts) ts self.numbers self.levels self.stack
            → Derives productions ts d.productions) }
        ensures fault { IfErr result
            (λ f. f ≢ SyntaxFault.Starved
            → (f ≡ SyntaxFault.Unexpected count)
            × ((ts : List Terminal)
            → Reached (map Some ts) ts self.numbers self.levels self.stack
            → GoesOn productions (and_then ts None)
            → ⊥)) }
    {
        if !self.settle(grammar, None)? {
            return Err(SyntaxFault::Unexpected(count));
        }
        match self.stack.first() {
            Some(_) => Err(SyntaxFault::Unexpected(count)),
            None => Ok(Derivation {
                productions: self.numbers,
            }),
        }
    }
}
