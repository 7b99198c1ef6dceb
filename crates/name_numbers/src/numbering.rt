//! The numbering of a program's names.

ghost use Rattle.std.specs.Prelude.{◌≡◌, ℕ, ◌+◌, ◌<◌, ◌≤◌, ◌^◌, List, ◌∷◌, [], ◌++◌, IfOk, length, map};
ghost use Rattle.std.specs.List.{sum_by};
ghost use Rattle.std.specs.Str.{str_to_ascii_lowercase};
ghost use Rattle.ada_text.specs.Tokens.{AreInOrder};
ghost use Rattle.name_numbers.specs.Numbers.{AreRising, identifiers, identifiers_among, known_names, numbered, text_at};
ghost use Rattle.name_numbers.specs.Places.{Knows, KnowsName, Reads, lower_cased};

use crate::table::NameTable;
use crate::words::{STANDARD_NAMES, WORDS, Word};
use ada_text::{LexFault, Span, Token, TokenKind, tokens};
use name_library::Ident;
use sqlite_items::Items;
use std::alloc::{AllocError, Global};
use std::collections::BTreeMap;

/// Texts in lower case, each with the place of the first of the names that is this text.
type Places<'a> = BTreeMap<&'a [u8], u32>;

/// A text in lower case.
fn in_lower_case(alloc: Global, text: &[u8]) -> Result<Items<u8>, AllocError>
    ensures { IfOk result (λ folded. folded ≡ str_to_ascii_lowercase text.now) }
{
    let mut folded = Items::new(alloc);
    for byte in text {
        folded.push(byte.to_ascii_lowercase())?;
    }
    Ok(folded)
}

/// The texts in lower case.
fn all_in_lower_case(alloc: Global, texts: &[&[u8]]) -> Result<Items<Items<u8>>, AllocError>
    ensures { IfOk result (λ folded. folded ≡ lower_cased (map (λ t. t.now) texts.now)) }
{
    let mut all = Items::new(alloc);
    for text in texts {
        all.push(in_lower_case(alloc, *text)?)?;
    }
    Ok(all)
}

/// Adds a name after `count` others, and gives the place of the first that is this text.
fn place_of<'a>(places: &mut Places<'a>, name: &'a [u8], count: u32) -> Result<u32, AllocError>
    ensures { (names : List (List ℕ)) → Knows places.old names → length names ≡ count → IfOk result (λ place. KnowsName places.new names name.now place) }
{
    if let Some(place) = places.get(&name).copied() {
        return Ok(place);
    }
    places.insert(name, count)?;
    Ok(count)
}

/// The identifier of a span, after `count` names. `folded` is its text in lower case.
fn ident_of<'a>(
    places: &mut Places<'a>,
    count: u32,
    folded: &'a [u8],
    span: Span,
) -> Result<Ident, AllocError>
    requires inside { (span.from ≤ span.to) × (span.to ≤ length folded.now) }
    ensures at { IfOk result (λ ident. ident.at ≡ span.from) }
    ensures name { (names : List (List ℕ)) → Knows places.old names → length names ≡ count → IfOk result (λ ident. KnowsName places.new names (text_at folded.now span) ident.name) }
{
    let name = &folded[span.from as usize..span.to as usize];
    Ok(Ident {
        name: place_of(places, name, count)?,
        at: span.from,
    })
}

/// The identifiers among the tokens of a text, of which `folded` is the text in lower case, after `count` names.
fn idents_among<'a>(
    alloc: Global,
    places: &mut Places<'a>,
    count: u32,
    folded: &'a [u8],
    tokens: &[Token],
) -> Result<Items<Ident>, AllocError>
    requires order { AreInOrder 0 tokens.now (length folded.now) }
    requires few { count + length folded.now < 2 ^ 32 }
    ensures places { IfOk result (λ idents. map (λ i. i.at) idents ≡ map (λ s. s.from) (identifiers_among tokens.now)) }
    ensures names { (names : List (List ℕ)) → Knows places.old names → length names ≡ count → IfOk result (λ idents. Reads names folded.now (identifiers_among tokens.now) places.new idents) }
{
    let mut idents = Items::new(alloc);
    for token in tokens {
        let TokenKind::Id = token.kind else {
            continue;
        };
        let ident = ident_of(places, count + idents.len() as u32, folded, token.span)?;
        idents.push(ident)?;
    }
    Ok(idents)
}

/// The identifiers of a text, of which `folded` is the text in lower case, after `count` names.
fn idents_in<'a>(
    alloc: Global,
    places: &mut Places<'a>,
    count: u32,
    text: &[u8],
    folded: &'a [u8],
) -> Result<Items<Ident>, AllocError>
    requires same { folded.now ≡ str_to_ascii_lowercase text.now }
    requires few { count + length text.now < 2 ^ 32 }
    ensures rising { IfOk result (λ idents. AreRising 0 idents) }
    ensures few { IfOk result (λ idents. length idents ≤ length text.now) }
    ensures names { (names : List (List ℕ)) → Knows places.old names → length names ≡ count → IfOk result (λ idents. Reads names folded.now (identifiers text.now) places.new idents) }
{
    match tokens(alloc, text) {
        Ok(found) => idents_among(alloc, places, count, folded, found.as_slice()),
        Err(LexFault::Starved) => Err(AllocError),
        Err(_) => Ok(Items::new(alloc)),
    }
}

/// Adds names after `count` others.
fn add_names<'a>(
    places: &mut Places<'a>,
    names: &'static [&'static [u8]],
    count: u32,
) -> Result<(), AllocError>
    requires { count + length names.now < 2 ^ 32 }
    ensures { (before : List (List ℕ)) → Knows places.old before → length before ≡ count → IfOk result (λ _. Knows places.new (before ++ map (λ n. n.now) names.now)) }
{
    for (at, name) in names.iter().enumerate() {
        place_of(places, *name, count + at as u32)?;
    }
    Ok(())
}

/// Adds the texts of words after `count` names.
fn add_words<'a>(
    places: &mut Places<'a>,
    words: &'static [(&'static [u8], Word)],
    count: u32,
) -> Result<(), AllocError>
    requires { count + length words.now < 2 ^ 32 }
    ensures { (before : List (List ℕ)) → Knows places.old before → length before ≡ count → IfOk result (λ _. Knows places.new (before ++ map (λ w. w.0.now) words.now)) }
{
    for (at, word) in words.iter().enumerate() {
        place_of(places, word.0, count + at as u32)?;
    }
    Ok(())
}

/// The places of the names that are known.
fn known_places<'a>(alloc: Global) -> Result<Places<'a>, AllocError>
    ensures { IfOk result (λ places. Knows places known_names) }
{
    let mut places = BTreeMap::new(alloc);
    add_names(&mut places, &STANDARD_NAMES, 0)?;
    add_words(&mut places, &WORDS, 29)?;
    Ok(places)
}

/// A table for each text, in their order, with the numbers of its identifiers' names. The numbers are below 56 and the count of all
/// identifiers. A text with a lexical fault has no identifiers. The texts have fewer than 2^31 bytes in all. `Err` where memory was
/// refused.
pub fn number_names(alloc: Global, texts: &[&[u8]]) -> Result<Items<NameTable>, AllocError>
    requires { sum_by (λ t. length t.now) texts.now < 2 ^ 31 }
    ensures { IfOk result (λ found. found ≡ numbered (map (λ t. t.now) texts.now)) }
{
    let folded = all_in_lower_case(alloc, texts)?;
    let mut places = known_places(alloc)?;
    let mut count = (STANDARD_NAMES.len() + WORDS.len()) as u32;
    let mut tables = Items::new(alloc);
    for (at, text) in texts.iter().enumerate() {
        let lower = folded.as_slice()[at].as_slice();
        let idents = idents_in(alloc, &mut places, count, *text, lower)?;
        count += idents.len() as u32;
        tables.push(NameTable::new(idents))?;
    }
    Ok(tables)
}
