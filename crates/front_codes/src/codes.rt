//! The codes of refusals, in their order, and the places.

ghost use Rattle.std.specs.Prelude.{◌≡◌};
ghost use Rattle.front_codes.specs.Codes.{first_of_two, is_before, number_of};

use ada_values::Place;

/// What is wrong with a text: a code for each rule. Of two that are broken at one place the one that stands first here is told.
#[derive(Clone, Copy)]
pub enum Code {
    /// A byte that no token has.
    BadByte,
    /// A number that isn't written as one.
    BadNumber,
    /// A number, or the value of a static expression, that 128 bits don't hold.
    TooWide,
    /// A token that the grammar doesn't have here.
    Unexpected,
    /// A text that nests past the limit.
    TooDeep,
    /// A name that stands for no declaration before it, or a body without its declaration (Ada RM 8.3).
    UnknownName,
    /// A name that stands for two declarations (Ada RM 8.4).
    AmbiguousName,
    /// A second declaration of a name in its scope, or a second unit of a name (Ada RM 8.3).
    Duplicate,
    /// A second declaration as before, where both are subprograms or one is an enumeration literal.
    Overloaded,
    /// A with clause on a circle (Ada RM 10.1.2).
    WithCycle,
    /// A declaration without its body (Ada RM 7.2).
    MissingBody,
    /// A body that differs from its declaration, or a name after `end` that differs (Ada RM 6.3.1).
    SpecMismatch,
    /// What the profile leaves out.
    LeftOut,
    /// Operands of `+ - * / mod rem` are of one integer type (Ada RM 4.5.3, 4.5.5).
    L1,
    /// `**` has an integer left operand and a right operand of type Integer (Ada RM 4.5.6).
    L2,
    /// Unary `+`, `-` and `abs` have an integer operand (Ada RM 4.5.4, 4.5.6).
    L3,
    /// Logical operators and `not` have Boolean operands (Ada RM 4.5.1, 4.5.6).
    L4,
    /// Operands of `=` and `/=` have one type; arrays have one constrained subtype, also inside records (Ada RM 4.5.2).
    L5,
    /// Operands of `< <= > >=` have one integer or enumeration type (Ada RM 4.5.2).
    L6,
    /// `in` has a left operand of integer or enumeration type, and a range of that type (Ada RM 4.5.2).
    L7,
    /// The target of an assignment is a variable, and the value has its type (Ada RM 5.2).
    L8,
    /// Conditions are Boolean, one each (Ada RM 5.3, 11.4.2).
    L9,
    /// Actuals match the formals, positional before named, each formal once (Ada RM 6.4).
    L10,
    /// An actual has the formal's type; for `out` and `in out` it is a variable (Ada RM 6.4.1).
    L11,
    /// A procedure is called as a statement, a function in an expression (Ada RM 6.4).
    L12,
    /// `return` has a value of the result type in a function and none in a procedure; a function's statements end so (Ada RM 6.5).
    L13,
    /// An indexed prefix is an array with one index of its index type (Ada RM 4.1.1).
    L14,
    /// A selected component stands in the prefix's record (Ada RM 4.1.3).
    L15,
    /// An aggregate gives each index or component once (Ada RM 4.3).
    L16,
    /// An array aggregate stands where the context gives a constrained subtype (Ada RM 4.3.3).
    L17,
    /// A conversion goes between integer types or within one type (Ada RM 4.6, 4.7).
    L18,
    /// Attributes have fitting prefixes (Ada RM 3.5, 3.6.2; SPARK RM 6.1.1).
    L19,
    /// Bounds and moduli are static and in their ranges (Ada RM 3.5.4).
    L20,
    /// A `case` covers each value of its selector once (Ada RM 5.4).
    L21,
    /// A `for` range is of integer or enumeration type (Ada RM 5.5).
    L22,
    /// A quantifier's range is as a loop's, and its body Boolean (Ada RM 4.5.8).
    L23,
    /// `exit` stands inside a loop (Ada RM 5.7).
    L24,
    /// Loop invariants and variants stand as one group in the loop's own list (SPARK RM 5.5.3).
    L25,
    /// Component and item subtypes are constrained; the branches of an if-expression have one type (Ada RM 3.6, 3.8, 4.5.7).
    L26,
    /// Objects have constrained subtypes, constants a value, and initial values at package level are static (Ada RM 3.3.1).
    L27,
    /// Aspects stand on the first declaration, each once; Pre and Post are Boolean (Ada RM 6.1.1, 13.1.1).
    L28,
    /// A static value lies in the base range of its type and has no zero divisor or negative exponent (Ada RM 4.9).
    L29,
    /// `Global` names globals, each once (SPARK RM 6.1.4).
    L30,
    /// A variable is set before it is read (SPARK RM 6.1.4).
    F1,
    /// An `out` parameter is set where its subprogram ends (SPARK RM 6.1.4).
    F2,
    /// A function has no side effect (SPARK RM 6.1).
    F3,
    /// Two parameters of one call don't alias (SPARK RM 6.4.2).
    F4,
    /// A parameter doesn't alias a global of its call (SPARK RM 6.4.2).
    F5,
    /// A stated `Global` is the one that the body has (SPARK RM 6.1.4).
    F6,
}

/// A rule that is broken, and where.
#[derive(Clone, Copy)]
pub struct Refusal {
    pub code: Code,
    pub place: Place,
}

/// The number of a code in their order, from 0.
pub fn number_of(code: Code) -> u32
    ensures { result ≡ number_of code }
{
    match code {
        Code::BadByte => 0,
        Code::BadNumber => 1,
        Code::TooWide => 2,
        Code::Unexpected => 3,
        Code::TooDeep => 4,
        Code::UnknownName => 5,
        Code::AmbiguousName => 6,
        Code::Duplicate => 7,
        Code::Overloaded => 8,
        Code::WithCycle => 9,
        Code::MissingBody => 10,
        Code::SpecMismatch => 11,
        Code::LeftOut => 12,
        Code::L1 => 13,
        Code::L2 => 14,
        Code::L3 => 15,
        Code::L4 => 16,
        Code::L5 => 17,
        Code::L6 => 18,
        Code::L7 => 19,
        Code::L8 => 20,
        Code::L9 => 21,
        Code::L10 => 22,
        Code::L11 => 23,
        Code::L12 => 24,
        Code::L13 => 25,
        Code::L14 => 26,
        Code::L15 => 27,
        Code::L16 => 28,
        Code::L17 => 29,
        Code::L18 => 30,
        Code::L19 => 31,
        Code::L20 => 32,
        Code::L21 => 33,
        Code::L22 => 34,
        Code::L23 => 35,
        Code::L24 => 36,
        Code::L25 => 37,
        Code::L26 => 38,
        Code::L27 => 39,
        Code::L28 => 40,
        Code::L29 => 41,
        Code::L30 => 42,
        Code::F1 => 43,
        Code::F2 => 44,
        Code::F3 => 45,
        Code::F4 => 46,
        Code::F5 => 47,
        Code::F6 => 48,
    }
}

/// Whether a refusal is told in place of another: it stands at the lesser place (file, line, column), or at the same one
/// and its code is the lesser.
pub fn is_before(left: Refusal, right: Refusal) -> bool
    ensures { result ≡ is_before left right }
{
    let (p, q) = (left.place, right.place);
    if p.file != q.file {
        return p.file < q.file;
    }
    if p.line != q.line {
        return p.line < q.line;
    }
    if p.column != q.column {
        return p.column < q.column;
    }
    number_of(left.code) < number_of(right.code)
}

/// The first of two refusals.
pub fn first_of_two(left: Refusal, right: Refusal) -> Refusal
    ensures { result ≡ first_of_two left right }
{
    if is_before(right, left) { right } else { left }
}
