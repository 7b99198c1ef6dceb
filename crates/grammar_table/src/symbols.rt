//! The symbols of the grammar.

ghost use Rattle.std.specs.Prelude.{◌≡◌};
ghost use Rattle.grammar_table.specs.Answers.{terminal_of};

use ada_text::{Delimiter, Reserved, TokenKind};

/// A token without what it says: which identifier, which number.
#[derive(Clone, Copy, Debug, PartialEq, Eq)]
pub enum Terminal {
    Identifier,
    Number,
    Word(Reserved),
    Mark(Delimiter),
}

impl Terminal {
    /// The kind of a token, without what it says.
    pub fn of(kind: TokenKind) -> Terminal
        ensures { result ≡ terminal_of kind }
    {
        match kind {
            TokenKind::Id => Terminal::Identifier,
            TokenKind::Number(_) => Terminal::Number,
            TokenKind::Word(word) => Terminal::Word(word),
            TokenKind::Mark(mark) => Terminal::Mark(mark),
        }
    }
}

/// What can be open at a place, from the least to the greatest.
#[derive(Clone, Copy, Debug, PartialEq, Eq)]
pub enum Construct {
    /// An operator, `.` or `'` of an expression.
    Operator,
    /// A membership test.
    Membership,
    /// An if-expression.
    Conditional,
    /// A pair of parentheses, or an if, case or loop statement.
    Enclosure,
}

/// What a token of a production does to the levels.
#[derive(Clone, Copy, Debug, PartialEq, Eq)]
pub enum Effect {
    Plain,
    /// Opens a level.
    Opens(Construct),
    /// Closes the levels of this construct and of lesser ones, up to the first that is greater.
    Ends(Construct),
    /// Closes what is less than an enclosure, and opens an enclosure.
    Begins,
    /// Closes what is less than an enclosure, and then one level.
    Closes,
}

/// A phrase of the grammar, under the name that the productions give it.
#[derive(Clone, Copy, PartialEq, Eq)]
pub enum Nonterminal {
    /// A compilation unit with its context.
    File,
    /// The context of a unit.
    Start,
    /// Further identifiers of a list.
    Ids,
    /// A library unit.
    Unit,
    /// A package after its first word.
    Pack,
    /// A private part, or none.
    Priv,
    /// The name after `end`, or none.
    EndId,
    /// Declarations.
    Decls,
    /// A declaration.
    Decl,
    /// A type definition.
    TypeDef,
    /// The index of an array type.
    Index,
    /// The rest of an index.
    IdxTail,
    /// An unconstrained range or bounds.
    Box,
    /// A component.
    Comp,
    /// Further components.
    Comps,
    /// A subtype indication.
    SubInd,
    /// The constraint of a subtype indication, or none.
    SubTail,
    /// The rest of an object declaration after its colon.
    Obj,
    /// The rest of a constant declaration.
    Const,
    /// An initial value, or none.
    Init,
    /// A subprogram declaration or body.
    Sub,
    /// The parameters of a subprogram, or none.
    Params,
    /// Further parameters.
    ParMore,
    /// A parameter.
    Param,
    /// The mode of a parameter.
    Mode,
    /// The rest of a mode after `in`.
    InOut,
    /// The body of a subprogram, or none.
    Body,
    /// The aspects of a declaration, or none.
    Asp,
    /// Further aspects.
    AspMore,
    /// An aspect.
    Aspect,
    /// The value of an aspect, or none.
    AspVal,
    /// A pragma.
    Pragma,
    /// The arguments of a pragma, or none.
    PragArg,
    /// Statements, one or more.
    Stmts,
    /// Further statements.
    StMore,
    /// A statement.
    Stmt,
    /// The rest of an assignment, or a call.
    Act,
    /// The `elsif` parts of an if statement.
    Elsifs,
    /// The `else` part of an if statement, or none.
    Else,
    /// An alternative of a case statement.
    When,
    /// Further alternatives.
    Whens,
    /// A choice.
    Choice,
    /// Further choices.
    Choices,
    /// The head of a loop, or none.
    Head,
    /// `reverse`, or nothing.
    Rev,
    /// The condition of an exit statement, or none.
    ExWhen,
    /// The value of a return statement, or none.
    RetVal,
    /// A range or one value.
    Range,
    /// The upper bound of a range, or none.
    RgTail,
    /// An expression, conditional, or quantified expression.
    Item,
    /// A quantified expression or an if-expression.
    Cond,
    /// `all` or `some`.
    AllSome,
    /// The `elsif` parts of an if-expression.
    IfMore,
    /// The `else` part of an if-expression, or none.
    IfElse,
    /// Associations between parentheses.
    Args,
    /// Further associations.
    ArgMore,
    /// An association.
    Arg,
    /// An association after its first simple expression.
    ArgMid,
    /// The value of a named association, or none.
    ArgVal,
    /// An expression.
    Expr,
    /// The logical operators after a relation.
    Logic,
    /// What follows `and`.
    AndRest,
    /// Further relations after `and then`.
    ThenMore,
    /// Further relations after `and`.
    AndMore,
    /// What follows `or`.
    OrRest,
    /// Further relations after `or else`.
    ElseMore,
    /// Further relations after `or`.
    OrMore,
    /// Further relations after `xor`.
    XorMore,
    /// A relation.
    Rel,
    /// A comparison or membership test, or none.
    RelTail,
    /// A relational operator.
    RelOp,
    /// A simple expression.
    Simple,
    /// Further terms.
    AddMore,
    /// A term.
    Term,
    /// Further factors.
    MulMore,
    /// A factor.
    Factor,
    /// An exponent, or none.
    Pow,
    /// A primary.
    Primary,
    /// A name.
    Name,
    /// What follows in a name.
    Suffix,
    /// What follows the `'` in a name.
    Tick,
}

/// A symbol of a right side.
#[derive(Clone, Copy, PartialEq, Eq)]
pub enum Symbol {
    Token(Terminal, Effect),
    Phrase(Nonterminal),
}
