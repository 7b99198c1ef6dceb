//! The words of codes.

ghost use Rattle.std.specs.Prelude.{◌≡◌};
ghost use Rattle.front_codes.specs.Words.{word_of};

use crate::codes::Code;

/// The word that is printed for a code.
pub fn text_of(code: Code) -> &'static str
    ensures { result.now ≡ word_of code }
{
    match code {
        Code::BadByte => "BadByte",
        Code::BadNumber => "BadNumber",
        Code::TooWide => "TooWide",
        Code::Unexpected => "Unexpected",
        Code::TooDeep => "TooDeep",
        Code::UnknownName => "UnknownName",
        Code::AmbiguousName => "AmbiguousName",
        Code::Duplicate => "Duplicate",
        Code::Overloaded => "Overloaded",
        Code::WithCycle => "WithCycle",
        Code::MissingBody => "MissingBody",
        Code::SpecMismatch => "SpecMismatch",
        Code::LeftOut => "LeftOut",
        Code::L1 => "L1",
        Code::L2 => "L2",
        Code::L3 => "L3",
        Code::L4 => "L4",
        Code::L5 => "L5",
        Code::L6 => "L6",
        Code::L7 => "L7",
        Code::L8 => "L8",
        Code::L9 => "L9",
        Code::L10 => "L10",
        Code::L11 => "L11",
        Code::L12 => "L12",
        Code::L13 => "L13",
        Code::L14 => "L14",
        Code::L15 => "L15",
        Code::L16 => "L16",
        Code::L17 => "L17",
        Code::L18 => "L18",
        Code::L19 => "L19",
        Code::L20 => "L20",
        Code::L21 => "L21",
        Code::L22 => "L22",
        Code::L23 => "L23",
        Code::L24 => "L24",
        Code::L25 => "L25",
        Code::L26 => "L26",
        Code::L27 => "L27",
        Code::L28 => "L28",
        Code::L29 => "L29",
        Code::L30 => "L30",
        Code::F1 => "F1",
        Code::F2 => "F2",
        Code::F3 => "F3",
        Code::F4 => "F4",
        Code::F5 => "F5",
        Code::F6 => "F6",
    }
}
