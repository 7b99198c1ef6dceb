//! The tokens of Ada texts by the lexical rules of the profile, and the lines and columns of places.
#![tactic(auto)]

mod bytes;
mod delimiters;
mod item;
mod lex;
mod number;
mod places;
mod reserved;
mod token;

pub use delimiters::Delimiter;
pub use lex::tokens;
pub use places::line_col;
pub use reserved::Reserved;
pub use token::{LexFault, Span, Starved, Token, TokenKind, TokenList};
