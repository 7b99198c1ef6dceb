//! The symbols that are left.

ghost use Rattle.std.specs.Prelude.{◌≡◌, [], ◌∷◌, ◌++◌, IfOk, drop};
ghost use Rattle.std.specs.List.{slice_get};

use crate::answers::Starved;
use crate::symbols::Symbol;
use std::alloc::Global;
use std::marker::Model;

/// Symbols that are still to be parsed, which contracts see as a list, the first one first.
#[derive(Drop)]
pub struct Stack {
    /// The first symbol last.
    symbols: Vec<Symbol>,
}

impl Model for Stack {
    ghost use Rattle.std.specs.Prelude.{List, reverse};
    ghost use Rattle.grammar_table.specs.declared.symbols.Symbol.{Symbol};

    ghost Value = { List Symbol };

    ghost view = { λ s. reverse s.symbols.items };
}

impl Stack {
    pub fn new(alloc: Global) -> Stack
        ensures { result ≡ [] }
    {
        Stack {
            symbols: Vec::new(alloc),
        }
    }

    /// The symbol that stands first.
    pub fn first(&self) -> Option<Symbol>
        ensures { result ≡ slice_get self.now 0 }
    {
        self.symbols.last().copied()
    }

    /// Takes the symbol that stands first.
    pub fn pop(&mut self) -> Option<Symbol>
        ensures first { result ≡ slice_get self.old 0 }
        ensures rest { self.new ≡ drop 1 self.old }
    {
        self.symbols.pop()
    }

    /// Puts a symbol before the others. The error comes where memory was refused.
    pub fn push(&mut self, symbol: Symbol) -> Result<(), Starved>
        ensures { IfOk result (λ _. self.new ≡ symbol ∷ self.old) }
    {
        self.symbols.push(symbol)?;
        Ok(())
    }

    /// Puts symbols before the others. The error comes where memory was refused.
    pub fn put(&mut self, right: &[Symbol]) -> Result<(), Starved>
        ensures { IfOk result (λ _. self.new ≡ right.now ++ self.old) }
    {
        let mut at = right.len();
        while at > 0 {
            at -= 1;
            self.push(right[at])?;
        }
        Ok(())
    }
}
