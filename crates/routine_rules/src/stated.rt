//! What aspects state, by their words and what is read of their values (Ada RM 6.1.1, 13.1.1).

ghost use Rattle.std.specs.Prelude.{◌≡◌, true, None};
ghost use Rattle.front_codes.specs.declared.codes.Code.TheVariants.{L28};
ghost use Rattle.statement_typing.specs.Aspects.{contract_of, stated};
ghost use Rattle.statement_typing.specs.Checks.{unless};
ghost use Rattle.statement_typing.specs.Files.{Home};
ghost use Rattle.statement_typing.specs.declared.parts.Stated.TheVariants as stated';
ghost use Rattle.type_base.specs.declared.world.World.{World};
ghost use Rattle.typing_rules.specs.Fits.{both, with_found};

use ada_values::Place;
use front_codes::{Code, Refusal};
use name_numbers::Word;
use sqlite_items::Items;
use statement_rules::{refuse, with_refused};
use statement_typing::Stated;
use typed_units::{Contract, Expr, GlobalAspect, GlobalItem};
use typing_rules::Found;

/// A `Pre` whose name is at a place.
pub fn pre_read(place: Place, condition: Found<Expr>) -> Found<Stated>
    ensures { result ≡ with_found (λ x. stated'.Pre (contract_of place x)) condition }
{
    match condition {
        Found::Is(condition) => Found::Is(Stated::Pre(Contract { place, condition })),
        Found::Unknown => Found::Unknown,
        Found::Refused(refusal) => Found::Refused(refusal),
    }
}

/// A `Post` whose name is at a place.
pub fn post_read(place: Place, condition: Found<Expr>) -> Found<Stated>
    ensures { result ≡ with_found (λ x. stated'.Post (contract_of place x)) condition }
{
    match condition {
        Found::Is(condition) => Found::Is(Stated::Post(Contract { place, condition })),
        Found::Unknown => Found::Unknown,
        Found::Refused(refusal) => Found::Refused(refusal),
    }
}

/// A `Global` whose name is at a place.
pub fn global_read(place: Place, items: Found<Items<GlobalItem>>) -> Found<Stated>
    ensures { result ≡ with_found (λ gs. stated'.Global (record { place = place; items = gs })) items }
{
    match items {
        Found::Is(items) => Found::Is(Stated::Global(GlobalAspect { place, items })),
        Found::Unknown => Found::Unknown,
        Found::Refused(refusal) => Found::Refused(refusal),
    }
}

/// An aspect without a value, by its word: L28 or L30 is broken at its place where it is a contract.
pub fn without_value(place: Place, word: Option<Word>) -> Found<Stated>
    ensures { (h : Home) (w : World) → result ≡ stated h w place word None }
{
    match word {
        Some(Word::Pre) | Some(Word::Post) => refuse(Code::L28, place),
        Some(Word::Global) => refuse(Code::L30, place),
        _ => Found::Is(Stated::Nothing),
    }
}

/// What an aspect at a place states: L28 is broken where it may not stand.
pub fn where_allowed(allowed: bool, place: Place, stated: Found<Stated>) -> Found<Stated>
    ensures { result ≡ both (λ u s. s) (unless allowed L28 place true) stated }
{
    if !allowed {
        let code = Code::L28;
        return with_refused(Refusal { code, place }, stated);
    }
    match stated {
        Found::Is(stated) => Found::Is(stated),
        Found::Unknown => Found::Unknown,
        Found::Refused(refusal) => Found::Refused(refusal),
    }
}
