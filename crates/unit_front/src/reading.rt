//! A file is read.

ghost use Rattle.std.specs.Prelude.{◌≡◌, ◌<◌, ◌≤◌, ◌-◌, ◌^◌, IfOk, length};
ghost use Rattle.ada_text.specs.declared.token.LexFault.TheVariants as lex;
ghost use Rattle.spark_reader.specs.declared.refusal.ReadRefusal.TheVariants as reading;
ghost use Rattle.spark_reader.specs.Reads.{Refuses, place_of};
ghost use Rattle.unit_front.specs.Reading.{IsFile, IsTold, IsToldLexical, IsToldSyntactic, code_of, code_of_lexical, code_of_syntactic, refusal_of};

use ada_text::{LexFault, line_col};
use ada_tree::SourceUnit;
use ada_values::{Place, Starved};
use front_codes::{Code, Refusal};
use grammar_table::SyntaxFault;
use name_resolver::SourceFile;
use spark_reader::{ReadRefusal, read};
use sqlite_items::Items;
use std::alloc::Global;

/// What a file's text is: refused by the lexical rules or by the grammar, or the text of a tree.
#[derive(Drop)]
pub enum FileRead {
    Lexical(Refusal),
    Syntactic(Refusal),
    Tree(SourceFile),
}

/// The code of a lexical fault.
fn code_of_lexical(fault: LexFault) -> Code
    requires { IsToldLexical fault }
    ensures { result ≡ code_of_lexical fault }
{
    match fault {
        LexFault::BadByte(_) => Code::BadByte,
        LexFault::BadNumber(_) => Code::BadNumber,
        LexFault::TooWide(_) => Code::TooWide,
        LexFault::Starved => unreachable!(),
    }
}

/// The code of a fault of the grammar.
fn code_of_syntactic(fault: SyntaxFault) -> Code
    requires { IsToldSyntactic fault }
    ensures { result ≡ code_of_syntactic fault }
{
    match fault {
        SyntaxFault::Unexpected(_) => Code::Unexpected,
        SyntaxFault::TooDeep(_) => Code::TooDeep,
        SyntaxFault::Starved => unreachable!(),
    }
}

/// The code of a refusal, which is no want of memory.
fn code_of(refusal: ReadRefusal) -> Code
    requires { IsTold refusal }
    ensures { result ≡ code_of refusal }
{
    match refusal {
        ReadRefusal::Lex(fault) => code_of_lexical(fault),
        ReadRefusal::Syntax(fault, _) => code_of_syntactic(fault),
        ReadRefusal::Starved => unreachable!(),
    }
}

/// The place of a refusal of these bytes.
fn place_in(bytes: &[u8], refusal: ReadRefusal) -> u32
    requires { Refuses bytes.now refusal }
    ensures place { result ≡ place_of bytes.now refusal }
    ensures within { result ≤ length bytes.now }
{
    refusal.place()
}

/// The refusal of a file's text, by the file's number.
fn refusal_of(file: u32, text: &[u8], refusal: ReadRefusal) -> Refusal
    requires short { length text.now < 2 ^ 32 - 1 }
    requires refused { Refuses text.now refusal }
    ensures { result ≡ refusal_of file text.now refusal }
{
    let (line, column) = line_col(text, place_in(text, refusal));
    Refusal {
        code: code_of(refusal),
        place: Place { file, line, column },
    }
}

/// A text with its tree.
fn with_text(alloc: Global, text: &[u8], unit: SourceUnit) -> Result<SourceFile, Starved>
    ensures { IfOk result (λ file. file ≡ record { text = text.now; unit = unit }) }
{
    match Items::from_slice(alloc, text) {
        Ok(text) => Ok(SourceFile { text, unit }),
        Err(starved) => {
            drop(unit);
            Err(starved)
        }
    }
}

/// Reads a file's text of fewer than 2^32 - 1 bytes.
pub fn read_file(alloc: Global, file: u32, text: &[u8]) -> Result<FileRead, Starved>
    requires { length text.now < 2 ^ 32 - 1 }
    ensures { IfOk result (λ found. IsFile file text.now found) }
{
    match read(alloc, text) {
        Ok(unit) => Ok(FileRead::Tree(with_text(alloc, text, unit)?)),
        Err(ReadRefusal::Starved) => Err(Starved),
        Err(ReadRefusal::Lex(fault)) => {
            Ok(FileRead::Lexical(refusal_of(file, text, ReadRefusal::Lex(fault))))
        }
        Err(ReadRefusal::Syntax(fault, at)) => {
            Ok(FileRead::Syntactic(refusal_of(file, text, ReadRefusal::Syntax(fault, at))))
        }
    }
}
