//! The grammar of the profile as a table, and the derivations of token lists.
#![tactic(auto)]

mod answers;
mod choices;
mod grammar;
mod levels;
mod productions;
mod reading;
mod run;
mod stack;
mod symbols;

pub use answers::{Derivation, NumberList, Starved, SyntaxFault};
pub use grammar::{Grammar, spark_grammar};
pub use reading::{derive, one_answer};
pub use symbols::{Construct, Effect, Nonterminal, Symbol, Terminal};
