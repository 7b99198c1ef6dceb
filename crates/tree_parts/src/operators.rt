//! What tokens say.

ghost use Rattle.std.specs.Prelude.{◌≡◌};
ghost use Rattle.tree_parts.specs.Operators.{logic_operator, marked_operator, number_of, operator_of, quantifier_of, reserved_operator, short_operator_of, unary_operator_of};

use ada_syntax::{BinaryOperator, Quantifier, UnaryOperator};
use ada_text::{Delimiter, Reserved, TokenKind};

/// The operator of one operand.
pub fn unary_operator_of(kind: TokenKind) -> UnaryOperator
    ensures { result ≡ unary_operator_of kind }
{
    match kind {
        TokenKind::Mark(Delimiter::Plus) => UnaryOperator::Plus,
        TokenKind::Mark(Delimiter::Minus) => UnaryOperator::Minus,
        TokenKind::Word(Reserved::Abs) => UnaryOperator::Abs,
        _ => UnaryOperator::Not,
    }
}

/// The operator of a delimiter.
fn marked_operator(mark: Delimiter) -> BinaryOperator
    ensures { result ≡ marked_operator mark }
{
    match mark {
        Delimiter::NotEqual => BinaryOperator::NotEqual,
        Delimiter::Less => BinaryOperator::Less,
        Delimiter::AtMost => BinaryOperator::AtMost,
        Delimiter::Greater => BinaryOperator::Greater,
        Delimiter::AtLeast => BinaryOperator::AtLeast,
        Delimiter::Plus => BinaryOperator::Add,
        Delimiter::Minus => BinaryOperator::Subtract,
        Delimiter::Star => BinaryOperator::Multiply,
        Delimiter::Slash => BinaryOperator::Divide,
        Delimiter::DoubleStar => BinaryOperator::Power,
        _ => BinaryOperator::Equal,
    }
}

/// The operator of a reserved word.
fn reserved_operator(word: Reserved) -> BinaryOperator
    ensures { result ≡ reserved_operator word }
{
    match word {
        Reserved::And => BinaryOperator::And,
        Reserved::Or => BinaryOperator::Or,
        Reserved::Xor => BinaryOperator::Xor,
        Reserved::Mod => BinaryOperator::Mod,
        Reserved::Rem => BinaryOperator::Rem,
        _ => BinaryOperator::Equal,
    }
}

/// The operator of two operands.
pub fn operator_of(kind: TokenKind) -> BinaryOperator
    ensures { result ≡ operator_of kind }
{
    match kind {
        TokenKind::Word(word) => reserved_operator(word),
        TokenKind::Mark(mark) => marked_operator(mark),
        _ => BinaryOperator::Equal,
    }
}

/// The short-circuit form that begins with this word.
pub fn short_operator_of(kind: TokenKind) -> BinaryOperator
    ensures { result ≡ short_operator_of kind }
{
    match kind {
        TokenKind::Word(Reserved::Or) => BinaryOperator::OrElse,
        _ => BinaryOperator::AndThen,
    }
}

/// The logical operator, or for true the short-circuit form, that begins with this word.
pub fn logic_operator(short: bool, kind: TokenKind) -> BinaryOperator
    ensures { result ≡ logic_operator short kind }
{
    if short {
        short_operator_of(kind)
    } else {
        operator_of(kind)
    }
}

/// What a quantified expression begins with.
pub fn quantifier_of(kind: TokenKind) -> Quantifier
    ensures { result ≡ quantifier_of kind }
{
    match kind {
        TokenKind::Word(Reserved::All) => Quantifier::All,
        _ => Quantifier::Some,
    }
}

/// The value of a number.
pub fn number_of(kind: TokenKind) -> i128
    ensures { result ≡ number_of kind }
{
    match kind {
        TokenKind::Number(value) => value,
        _ => 0,
    }
}
