//! The productions.

use crate::symbols::Construct::{Conditional, Enclosure, Membership, Operator};
use crate::symbols::Effect::{Begins, Closes, Ends, Opens, Plain};
use crate::symbols::Nonterminal;
use crate::symbols::Symbol::{self, Phrase, Token};
use crate::symbols::Terminal::{Identifier, Mark, Number, Word};
use ada_text::{Delimiter, Reserved};

const IDENTIFIER: Symbol = Token(Identifier, Plain);

const NUMBER: Symbol = Token(Number, Plain);

const OPENING: Symbol = Token(Mark(Delimiter::Open), Opens(Enclosure));

const CLOSING: Symbol = Token(Mark(Delimiter::Close), Closes);

macro_rules! word {
    ($word:ident) => {
        Token(Word(Reserved::$word), Plain)
    };
    ($word:ident, $effect:expr) => {
        Token(Word(Reserved::$word), $effect)
    };
}

macro_rules! mark {
    ($mark:ident) => {
        Token(Mark(Delimiter::$mark), Plain)
    };
    ($mark:ident, $effect:expr) => {
        Token(Mark(Delimiter::$mark), $effect)
    };
}

/// A mark that ends what stands before it.
macro_rules! separator {
    ($mark:ident) => {
        mark!($mark, Ends(Conditional))
    };
}

macro_rules! phrase {
    ($name:ident) => {
        Phrase(Nonterminal::$name)
    };
}

/// A set of tokens and the end: the bit at the place of each member is set.
pub type TokenSet = u128;

/// The place of the first reserved word in sets of tokens.
pub const FIRST_WORD: u32 = 3;

/// The place of the first delimiter.
pub const FIRST_MARK: u32 = 76;

/// The identifiers.
const IDENTIFIERS: TokenSet = 1 << 1;

/// The numbers.
const NUMBERS: TokenSet = 1 << 2;

/// These reserved words.
macro_rules! words {
    ($($word:ident),+) => {
        $(1 << (FIRST_WORD + Reserved::$word as u32))|+
    };
}

/// These delimiters.
macro_rules! marks {
    ($($mark:ident),+) => {
        $(1 << (FIRST_MARK + Delimiter::$mark as u32))|+
    };
}

/// What a primary begins with.
const PRIMARY: TokenSet = IDENTIFIERS | NUMBERS | words!(Null) | marks!(Open);

/// What a term begins with.
const TERM: TokenSet = PRIMARY | words!(Abs, Not);

/// What an expression begins with.
const EXPRESSION: TokenSet = TERM | marks!(Plus, Minus);

/// What a statement begins with.
const STATEMENT: TokenSet = IDENTIFIERS
    | words!(Case, Exit, For, If, Loop, Null, Pragma, Return, While);

/// The relational operators.
const COMPARISON: TokenSet = marks!(NotEqual, AtLeast, AtMost, Equal, Less, Greater);

/// What may follow an expression.
const AFTER_EXPRESSION: TokenSet = words!(Else, Elsif, Is, Loop, Then)
    | marks!(Arrow, Close, Comma, Semicolon);

/// What may follow a relation.
const AFTER_RELATION: TokenSet = AFTER_EXPRESSION | words!(And, Or, Xor);

/// What may follow a simple expression.
const AFTER_SIMPLE: TokenSet = AFTER_RELATION
    | COMPARISON
    | words!(In, Not, Range)
    | marks!(DoubleDot, Assign, Bar);

/// What may follow a term.
const AFTER_TERM: TokenSet = AFTER_SIMPLE | marks!(Plus, Minus);

/// What may follow a factor.
const AFTER_FACTOR: TokenSet = AFTER_TERM | words!(Mod, Rem) | marks!(Star, Slash);

/// The left side of a production, and the tokens before which the production replaces it.
#[derive(Clone, Copy)]
pub struct Head {
    pub left: Nonterminal,
    pub before: TokenSet,
}

/// A production: its head, and the right side that stands for its left side.
pub type Row = (Head, &'static [Symbol]);

/// A left side, what stands for it, and the tokens before which it does.
macro_rules! row {
    ($left:ident => [$($symbol:expr),*], before $before:expr) => {
        (
            Head {
                left: Nonterminal::$left,
                before: $before,
            },
            &[$($symbol),*],
        )
    };
}

/// How many productions there are.
pub const PRODUCTIONS: usize = 186;

/// The productions. Those of a nonterminal stand together, in the order of the nonterminals.
pub static ROWS: [Row; PRODUCTIONS] = [
    row!(File => [phrase!(Start), phrase!(Unit)], before words!(Function, Package, Pragma, Procedure, Use, With)),
    row!(Start => [phrase!(Pragma), phrase!(Start)], before words!(Pragma)),
    row!(Start => [word!(With), IDENTIFIER, phrase!(Ids), separator!(Semicolon), phrase!(Start)], before words!(With)),
    row!(Start => [word!(Use), IDENTIFIER, phrase!(Ids), separator!(Semicolon), phrase!(Start)], before words!(Use)),
    row!(Start => [], before words!(Function, Package, Procedure)),
    row!(Ids => [separator!(Comma), IDENTIFIER, phrase!(Ids)], before marks!(Comma)),
    row!(Ids => [], before marks!(Close, Semicolon, Colon)),
    row!(Unit => [word!(Package), phrase!(Pack)], before words!(Package)),
    row!(Unit => [phrase!(Sub)], before words!(Function, Procedure)),
    row!(Pack => [word!(Body), IDENTIFIER, phrase!(Asp), word!(Is, Ends(Conditional)), phrase!(Decls), word!(End), phrase!(EndId), separator!(Semicolon)], before words!(Body)),
    row!(Pack => [IDENTIFIER, phrase!(Asp), word!(Is, Ends(Conditional)), phrase!(Decls), phrase!(Priv), word!(End), phrase!(EndId), separator!(Semicolon)], before IDENTIFIERS),
    row!(Priv => [word!(Private), phrase!(Decls)], before words!(Private)),
    row!(Priv => [], before words!(End)),
    row!(EndId => [IDENTIFIER], before IDENTIFIERS),
    row!(EndId => [], before marks!(Semicolon)),
    row!(Decls => [phrase!(Decl), phrase!(Decls)], before IDENTIFIERS | words!(Function, Pragma, Procedure, Subtype, Type, Use)),
    row!(Decls => [], before words!(Begin, End, Private)),
    row!(Decl => [word!(Type), IDENTIFIER, word!(Is), phrase!(TypeDef), separator!(Semicolon)], before words!(Type)),
    row!(Decl => [word!(Subtype), IDENTIFIER, word!(Is), phrase!(SubInd), separator!(Semicolon)], before words!(Subtype)),
    row!(Decl => [IDENTIFIER, phrase!(Ids), mark!(Colon), phrase!(Obj), separator!(Semicolon)], before IDENTIFIERS),
    row!(Decl => [phrase!(Sub)], before words!(Function, Procedure)),
    row!(Decl => [phrase!(Pragma)], before words!(Pragma)),
    row!(Decl => [word!(Use), IDENTIFIER, phrase!(Ids), separator!(Semicolon)], before words!(Use)),
    row!(TypeDef => [word!(Range), phrase!(Simple), mark!(DoubleDot, Ends(Operator)), phrase!(Simple)], before words!(Range)),
    row!(TypeDef => [word!(Mod), phrase!(Simple)], before words!(Mod)),
    row!(TypeDef => [OPENING, IDENTIFIER, phrase!(Ids), CLOSING], before marks!(Open)),
    row!(TypeDef => [word!(Array), OPENING, phrase!(Index), CLOSING, word!(Of), phrase!(SubInd)], before words!(Array)),
    row!(TypeDef => [word!(Record), phrase!(Comp), phrase!(Comps), word!(End), word!(Record)], before words!(Record)),
    row!(TypeDef => [word!(New), phrase!(SubInd)], before words!(New)),
    row!(Index => [phrase!(Simple), phrase!(IdxTail)], before EXPRESSION),
    row!(IdxTail => [word!(Range, Ends(Conditional)), phrase!(Box)], before words!(Range)),
    row!(IdxTail => [mark!(DoubleDot, Ends(Operator)), phrase!(Simple)], before marks!(DoubleDot)),
    row!(IdxTail => [], before marks!(Close)),
    row!(Box => [mark!(Diamond)], before marks!(Diamond)),
    row!(Box => [phrase!(Simple), mark!(DoubleDot, Ends(Operator)), phrase!(Simple)], before EXPRESSION),
    row!(Comp => [IDENTIFIER, phrase!(Ids), mark!(Colon), phrase!(SubInd), separator!(Semicolon)], before IDENTIFIERS),
    row!(Comps => [phrase!(Comp), phrase!(Comps)], before IDENTIFIERS),
    row!(Comps => [], before words!(End)),
    row!(SubInd => [phrase!(Name), phrase!(SubTail)], before IDENTIFIERS),
    row!(SubTail => [word!(Range, Ends(Conditional)), phrase!(Simple), mark!(DoubleDot, Ends(Operator)), phrase!(Simple)], before words!(Range)),
    row!(SubTail => [], before marks!(Assign, Close, Semicolon)),
    row!(Obj => [word!(Constant), phrase!(Const)], before words!(Constant)),
    row!(Obj => [phrase!(SubInd), phrase!(Init)], before IDENTIFIERS),
    row!(Const => [separator!(Assign), phrase!(Expr)], before marks!(Assign)),
    row!(Const => [phrase!(SubInd), phrase!(Init)], before IDENTIFIERS),
    row!(Init => [separator!(Assign), phrase!(Expr)], before marks!(Assign)),
    row!(Init => [], before marks!(Semicolon)),
    row!(Sub => [word!(Procedure), IDENTIFIER, phrase!(Params), phrase!(Asp), phrase!(Body)], before words!(Procedure)),
    row!(Sub => [word!(Function), IDENTIFIER, phrase!(Params), word!(Return), phrase!(Name), phrase!(Asp), phrase!(Body)], before words!(Function)),
    row!(Params => [OPENING, phrase!(Param), phrase!(ParMore), CLOSING], before marks!(Open)),
    row!(Params => [], before words!(Is, Return, With) | marks!(Semicolon)),
    row!(ParMore => [separator!(Semicolon), phrase!(Param), phrase!(ParMore)], before marks!(Semicolon)),
    row!(ParMore => [], before marks!(Close)),
    row!(Param => [IDENTIFIER, phrase!(Ids), mark!(Colon), phrase!(Mode), phrase!(SubInd)], before IDENTIFIERS),
    row!(Mode => [word!(In), phrase!(InOut)], before words!(In)),
    row!(Mode => [word!(Out)], before words!(Out)),
    row!(Mode => [], before IDENTIFIERS),
    row!(InOut => [word!(Out)], before words!(Out)),
    row!(InOut => [], before IDENTIFIERS),
    row!(Body => [separator!(Semicolon)], before marks!(Semicolon)),
    row!(Body => [word!(Is, Ends(Conditional)), phrase!(Decls), word!(Begin), phrase!(Stmts), word!(End), phrase!(EndId), separator!(Semicolon)], before words!(Is)),
    row!(Asp => [word!(With, Ends(Conditional)), phrase!(Aspect), phrase!(AspMore)], before words!(With)),
    row!(Asp => [], before words!(Is) | marks!(Semicolon)),
    row!(AspMore => [separator!(Comma), phrase!(Aspect), phrase!(AspMore)], before marks!(Comma)),
    row!(AspMore => [], before words!(Is) | marks!(Semicolon)),
    row!(Aspect => [IDENTIFIER, phrase!(AspVal)], before IDENTIFIERS),
    row!(AspVal => [separator!(Arrow), phrase!(Item)], before marks!(Arrow)),
    row!(AspVal => [], before words!(Is) | marks!(Comma, Semicolon)),
    row!(Pragma => [word!(Pragma), IDENTIFIER, phrase!(PragArg), separator!(Semicolon)], before words!(Pragma)),
    row!(PragArg => [OPENING, phrase!(Args), CLOSING], before marks!(Open)),
    row!(PragArg => [], before marks!(Semicolon)),
    row!(Stmts => [phrase!(Stmt), phrase!(StMore)], before STATEMENT),
    row!(StMore => [phrase!(Stmt), phrase!(StMore)], before STATEMENT),
    row!(StMore => [], before words!(Else, Elsif, End, When)),
    row!(Stmt => [word!(Null), separator!(Semicolon)], before words!(Null)),
    row!(Stmt => [phrase!(Name), phrase!(Act), separator!(Semicolon)], before IDENTIFIERS),
    row!(Stmt => [word!(If, Opens(Enclosure)), phrase!(Expr), word!(Then, Ends(Membership)), phrase!(Stmts), phrase!(Elsifs), phrase!(Else), word!(End), word!(If, Closes), separator!(Semicolon)], before words!(If)),
    row!(Stmt => [word!(Case, Opens(Enclosure)), phrase!(Expr), word!(Is, Ends(Membership)), phrase!(When), phrase!(Whens), word!(End), word!(Case, Closes), separator!(Semicolon)], before words!(Case)),
    row!(Stmt => [phrase!(Head), word!(Loop, Begins), phrase!(Stmts), word!(End), word!(Loop, Closes), separator!(Semicolon)], before words!(For, Loop, While)),
    row!(Stmt => [word!(Exit), phrase!(ExWhen), separator!(Semicolon)], before words!(Exit)),
    row!(Stmt => [word!(Return), phrase!(RetVal), separator!(Semicolon)], before words!(Return)),
    row!(Stmt => [phrase!(Pragma)], before words!(Pragma)),
    row!(Act => [separator!(Assign), phrase!(Expr)], before marks!(Assign)),
    row!(Act => [], before marks!(Semicolon)),
    row!(Elsifs => [word!(Elsif), phrase!(Expr), word!(Then, Ends(Membership)), phrase!(Stmts), phrase!(Elsifs)], before words!(Elsif)),
    row!(Elsifs => [], before words!(Else, End)),
    row!(Else => [word!(Else), phrase!(Stmts)], before words!(Else)),
    row!(Else => [], before words!(End)),
    row!(When => [word!(When), phrase!(Choice), phrase!(Choices), separator!(Arrow), phrase!(Stmts)], before words!(When)),
    row!(Whens => [phrase!(When), phrase!(Whens)], before words!(When)),
    row!(Whens => [], before words!(End)),
    row!(Choice => [word!(Others)], before words!(Others)),
    row!(Choice => [phrase!(Range)], before EXPRESSION),
    row!(Choices => [separator!(Bar), phrase!(Choice), phrase!(Choices)], before marks!(Bar)),
    row!(Choices => [], before marks!(Arrow)),
    row!(Head => [word!(While), phrase!(Expr)], before words!(While)),
    row!(Head => [word!(For), IDENTIFIER, word!(In), phrase!(Rev), phrase!(Range)], before words!(For)),
    row!(Head => [], before words!(Loop)),
    row!(Rev => [word!(Reverse)], before words!(Reverse)),
    row!(Rev => [], before EXPRESSION),
    row!(ExWhen => [word!(When), phrase!(Expr)], before words!(When)),
    row!(ExWhen => [], before marks!(Semicolon)),
    row!(RetVal => [phrase!(Expr)], before EXPRESSION),
    row!(RetVal => [], before marks!(Semicolon)),
    row!(Range => [phrase!(Simple), phrase!(RgTail)], before EXPRESSION),
    row!(RgTail => [mark!(DoubleDot, Ends(Operator)), phrase!(Simple)], before marks!(DoubleDot)),
    row!(RgTail => [], before AFTER_RELATION | marks!(Bar)),
    row!(Item => [phrase!(Cond)], before words!(For, If)),
    row!(Item => [phrase!(Expr)], before EXPRESSION),
    row!(Cond => [word!(For), phrase!(AllSome), IDENTIFIER, word!(In), phrase!(Range), separator!(Arrow), phrase!(Expr)], before words!(For)),
    row!(Cond => [word!(If, Opens(Conditional)), phrase!(Expr), word!(Then, Ends(Membership)), phrase!(Expr), phrase!(IfMore), phrase!(IfElse)], before words!(If)),
    row!(AllSome => [word!(All)], before words!(All)),
    row!(AllSome => [word!(Some)], before words!(Some)),
    row!(IfMore => [word!(Elsif, Ends(Membership)), phrase!(Expr), word!(Then, Ends(Membership)), phrase!(Expr), phrase!(IfMore)], before words!(Elsif)),
    row!(IfMore => [], before words!(Else, Is) | marks!(Arrow, Close, Comma, Semicolon)),
    row!(IfElse => [word!(Else, Ends(Membership)), phrase!(Expr)], before words!(Else)),
    row!(IfElse => [], before words!(Is) | marks!(Arrow, Close, Comma, Semicolon)),
    row!(Args => [phrase!(Arg), phrase!(ArgMore)], before EXPRESSION | words!(For, If, Others)),
    row!(ArgMore => [separator!(Comma), phrase!(Arg), phrase!(ArgMore)], before marks!(Comma)),
    row!(ArgMore => [], before marks!(Close)),
    row!(Arg => [word!(Others), separator!(Arrow), phrase!(Item)], before words!(Others)),
    row!(Arg => [phrase!(Cond), phrase!(ArgVal)], before words!(For, If)),
    row!(Arg => [phrase!(Simple), phrase!(ArgMid)], before EXPRESSION),
    row!(ArgMid => [mark!(DoubleDot, Ends(Operator)), phrase!(Simple), phrase!(ArgVal)], before marks!(DoubleDot)),
    row!(ArgMid => [phrase!(RelTail), phrase!(Logic), phrase!(ArgVal)], before AFTER_RELATION | COMPARISON | words!(In, Not)),
    row!(ArgVal => [separator!(Arrow), phrase!(Item)], before marks!(Arrow)),
    row!(ArgVal => [], before marks!(Close, Comma)),
    row!(Expr => [phrase!(Rel), phrase!(Logic)], before EXPRESSION),
    row!(Logic => [word!(And, Opens(Operator)), phrase!(AndRest)], before words!(And)),
    row!(Logic => [word!(Or, Opens(Operator)), phrase!(OrRest)], before words!(Or)),
    row!(Logic => [word!(Xor, Opens(Operator)), phrase!(Rel), phrase!(XorMore)], before words!(Xor)),
    row!(Logic => [], before AFTER_EXPRESSION),
    row!(AndRest => [word!(Then), phrase!(Rel), phrase!(ThenMore)], before words!(Then)),
    row!(AndRest => [phrase!(Rel), phrase!(AndMore)], before EXPRESSION),
    row!(ThenMore => [word!(And, Opens(Operator)), word!(Then), phrase!(Rel), phrase!(ThenMore)], before words!(And)),
    row!(ThenMore => [], before AFTER_EXPRESSION),
    row!(AndMore => [word!(And, Opens(Operator)), phrase!(Rel), phrase!(AndMore)], before words!(And)),
    row!(AndMore => [], before AFTER_EXPRESSION),
    row!(OrRest => [word!(Else), phrase!(Rel), phrase!(ElseMore)], before words!(Else)),
    row!(OrRest => [phrase!(Rel), phrase!(OrMore)], before EXPRESSION),
    row!(ElseMore => [word!(Or, Opens(Operator)), word!(Else), phrase!(Rel), phrase!(ElseMore)], before words!(Or)),
    row!(ElseMore => [], before AFTER_EXPRESSION),
    row!(OrMore => [word!(Or, Opens(Operator)), phrase!(Rel), phrase!(OrMore)], before words!(Or)),
    row!(OrMore => [], before AFTER_EXPRESSION),
    row!(XorMore => [word!(Xor, Opens(Operator)), phrase!(Rel), phrase!(XorMore)], before words!(Xor)),
    row!(XorMore => [], before AFTER_EXPRESSION),
    row!(Rel => [phrase!(Simple), phrase!(RelTail)], before EXPRESSION),
    row!(RelTail => [phrase!(RelOp), phrase!(Simple)], before COMPARISON),
    row!(RelTail => [word!(In, Opens(Membership)), phrase!(Range)], before words!(In)),
    row!(RelTail => [word!(Not, Opens(Membership)), word!(In), phrase!(Range)], before words!(Not)),
    row!(RelTail => [], before AFTER_RELATION),
    row!(RelOp => [mark!(Equal, Opens(Operator))], before marks!(Equal)),
    row!(RelOp => [mark!(NotEqual, Opens(Operator))], before marks!(NotEqual)),
    row!(RelOp => [mark!(Less, Opens(Operator))], before marks!(Less)),
    row!(RelOp => [mark!(AtMost, Opens(Operator))], before marks!(AtMost)),
    row!(RelOp => [mark!(Greater, Opens(Operator))], before marks!(Greater)),
    row!(RelOp => [mark!(AtLeast, Opens(Operator))], before marks!(AtLeast)),
    row!(Simple => [mark!(Plus, Opens(Operator)), phrase!(Term), phrase!(AddMore)], before marks!(Plus)),
    row!(Simple => [mark!(Minus, Opens(Operator)), phrase!(Term), phrase!(AddMore)], before marks!(Minus)),
    row!(Simple => [phrase!(Term), phrase!(AddMore)], before TERM),
    row!(AddMore => [mark!(Plus, Opens(Operator)), phrase!(Term), phrase!(AddMore)], before marks!(Plus)),
    row!(AddMore => [mark!(Minus, Opens(Operator)), phrase!(Term), phrase!(AddMore)], before marks!(Minus)),
    row!(AddMore => [], before AFTER_SIMPLE),
    row!(Term => [phrase!(Factor), phrase!(MulMore)], before TERM),
    row!(MulMore => [mark!(Star, Opens(Operator)), phrase!(Factor), phrase!(MulMore)], before marks!(Star)),
    row!(MulMore => [mark!(Slash, Opens(Operator)), phrase!(Factor), phrase!(MulMore)], before marks!(Slash)),
    row!(MulMore => [word!(Mod, Opens(Operator)), phrase!(Factor), phrase!(MulMore)], before words!(Mod)),
    row!(MulMore => [word!(Rem, Opens(Operator)), phrase!(Factor), phrase!(MulMore)], before words!(Rem)),
    row!(MulMore => [], before AFTER_TERM),
    row!(Factor => [word!(Abs, Opens(Operator)), phrase!(Primary)], before words!(Abs)),
    row!(Factor => [word!(Not, Opens(Operator)), phrase!(Primary)], before words!(Not)),
    row!(Factor => [phrase!(Primary), phrase!(Pow)], before PRIMARY),
    row!(Pow => [mark!(DoubleStar, Opens(Operator)), phrase!(Primary)], before marks!(DoubleStar)),
    row!(Pow => [], before AFTER_FACTOR),
    row!(Primary => [NUMBER], before NUMBERS),
    row!(Primary => [word!(Null)], before words!(Null)),
    row!(Primary => [phrase!(Name)], before IDENTIFIERS),
    row!(Primary => [OPENING, phrase!(Args), CLOSING], before marks!(Open)),
    row!(Name => [IDENTIFIER, phrase!(Suffix)], before IDENTIFIERS),
    row!(Suffix => [mark!(Dot, Opens(Operator)), IDENTIFIER, phrase!(Suffix)], before marks!(Dot)),
    row!(Suffix => [mark!(Tick, Opens(Operator)), phrase!(Tick), phrase!(Suffix)], before marks!(Tick)),
    row!(Suffix => [OPENING, phrase!(Args), CLOSING, phrase!(Suffix)], before marks!(Open)),
    row!(Suffix => [], before AFTER_FACTOR | words!(With) | marks!(DoubleStar)),
    row!(Tick => [IDENTIFIER], before IDENTIFIERS),
    row!(Tick => [word!(Range)], before words!(Range)),
    row!(Tick => [OPENING, phrase!(Args), CLOSING], before marks!(Open)),
];
