//! The indexes of contracts.

ghost use Rattle.std.specs.Prelude.{◌≡◌, ◌++◌, OnOk, map, option_map};
ghost use Rattle.program_scope.specs.Homes.{file_of};
ghost use Rattle.statement_typing.specs.Numbers.{in_aspect, in_aspect_value, in_aspects, is_post, is_pre};
ghost use Rattle.syntax_view.specs.View.{aspect_of, expr, item_of};

use crate::Starved;
use crate::expressions::push_item;
use ada_syntax::{Aspect, Expr, Item};
use name_numbers::Word;
use program_scope::File;
use sqlite_items::Items;

fn is_pre(word: Option<Word>) -> bool
    ensures { result ≡ is_pre word }
{
    match word {
        Some(Word::Pre) => true,
        _ => false,
    }
}

fn is_post(word: Option<Word>) -> bool
    ensures { result ≡ is_post word }
{
    match word {
        Some(Word::Post) => true,
        _ => false,
    }
}

fn push_value(found: &mut Items<u32>, value: &Option<Item<Expr>>) -> Result<(), Starved>
    ensures { OnOk result (found.new ≡ found.old ++ in_aspect_value (option_map (item_of expr) value.now)) }
{
    match value {
        None => Ok(()),
        Some(item) => push_item(found, item),
    }
}

/// Adds the indexes of an aspect's value, where the aspect is one that is asked for.
fn push_aspect(
    found: &mut Items<u32>,
    asked: bool,
    value: &Option<Item<Expr>>,
) -> Result<(), Starved>
    ensures { OnOk result (found.new ≡ found.old ++ in_aspect asked (option_map (item_of expr) value.now)) }
{
    if asked {
        push_value(found, value)
    } else {
        Ok(())
    }
}

fn push_pre(found: &mut Items<u32>, file: &File, aspects: &[Aspect]) -> Result<(), Starved>
    ensures { OnOk result (found.new ≡ found.old ++ in_aspects is_pre (file_of file.now).word (map aspect_of aspects.now)) }
{
    for aspect in aspects {
        push_aspect(found, is_pre(file.word(aspect.name.from)), &aspect.value)?;
    }
    Ok(())
}

fn push_post(found: &mut Items<u32>, file: &File, aspects: &[Aspect]) -> Result<(), Starved>
    ensures { OnOk result (found.new ≡ found.old ++ in_aspects is_post (file_of file.now).word (map aspect_of aspects.now)) }
{
    for aspect in aspects {
        push_aspect(found, is_post(file.word(aspect.name.from)), &aspect.value)?;
    }
    Ok(())
}

/// Adds the indexes of `Pre`, and then those of `Post`.
#[tactic(auto, using(crate::proofs::Joined::joined))]
pub(crate) fn push_contract(
    found: &mut Items<u32>,
    file: &File,
    aspects: &[Aspect],
) -> Result<(), Starved>
    ensures { OnOk result (found.new ≡ found.old ++ (in_aspects is_pre (file_of file.now).word (map aspect_of aspects.now) ++ in_aspects is_post (file_of file.now).word (map aspect_of aspects.now))) }
{
    push_pre(found, file, aspects)?;
    push_post(found, file, aspects)
}
