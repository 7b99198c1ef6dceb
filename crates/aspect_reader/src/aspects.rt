//! Aspects (Ada RM 6.1.1, 13.1.1).

ghost use Rattle.std.specs.Prelude.{◌≡◌, ℕ, List, [], Some, IfOk, map, option_map};
ghost use Rattle.front_codes.specs.declared.codes.Code.TheVariants.{L28};
ghost use Rattle.program_scope.specs.Homes.{home_of};
ghost use Rattle.routine_rules.specs.Standing.{HasAspects};
ghost use Rattle.statement_typing.specs.Aspects as rules;
ghost use Rattle.statement_typing.specs.Checks.{all_of};
ghost use Rattle.statement_typing.specs.Files.{place_at, scope};
ghost use Rattle.syntax_view.specs.View.{aspect_of, expr, item_of};
ghost use Rattle.type_base.specs.declared.seen.Moment.TheVariants as moment';

use crate::conditions::item_condition;
use ada_syntax::{Aspect, Expr as Tree, Item};
use ada_values::Place;
use front_codes::Code;
use name_numbers::Word;
use program_scope::Home;
use routine_rules::{
    Standing, global_items, global_read, post_read, pre_read, where_allowed, without_value,
};
use sqlite_items::Items;
use statement_typing::Stated;
use std::alloc::Global;
use type_base::{Moment, Starved, World};
use typed_units::{Expr, GlobalItem};
use typing_rules::Found;

/// The condition of a contract, by L28.
fn condition_at(
    alloc: Global,
    home: &Home,
    world: &World,
    moment: Moment,
    item: &Item<Tree>,
) -> Result<Found<Expr>, Starved>
    ensures { IfOk result (λ f. f ≡ rules.item_condition (scope (home_of home.now) moment world.now) L28 (item_of expr item.now)) }
{
    item_condition(alloc, &home.scope(moment, world), Code::L28, item)
}

fn globals_at(
    alloc: Global,
    home: &Home,
    world: &World,
    item: &Item<Tree>,
) -> Result<Found<Items<GlobalItem>>, Starved>
    ensures { IfOk result (λ f. f ≡ all_of (rules.global_items (home_of home.now) (scope (home_of home.now) moment'.Elsewhere world.now) (item_of expr item.now))) }
{
    global_items(alloc, home, &home.scope(Moment::Elsewhere, world), item)
}

/// What the value of an aspect of this word states, at the place of the aspect's name.
fn value_stated(
    alloc: Global,
    home: &Home,
    world: &World,
    place: Place,
    word: Option<Word>,
    item: &Item<Tree>,
) -> Result<Found<Stated>, Starved>
    ensures { IfOk result (λ f. f ≡ rules.stated (home_of home.now) world.now place word (Some (item_of expr item.now))) }
{
    match word {
        Some(Word::Pre) => {
            let condition = condition_at(alloc, home, world, Moment::Elsewhere, item)?;
            Ok(pre_read(place, condition))
        }
        Some(Word::Post) => {
            let condition = condition_at(alloc, home, world, Moment::InPost, item)?;
            Ok(post_read(place, condition))
        }
        Some(Word::Global) => {
            let items = globals_at(alloc, home, world, item)?;
            Ok(global_read(place, items))
        }
        _ => Ok(Found::Is(Stated::Nothing)),
    }
}

fn stated(
    alloc: Global,
    home: &Home,
    world: &World,
    aspect: &Aspect,
    word: Option<Word>,
) -> Result<Found<Stated>, Starved>
    ensures { IfOk result (λ f. f ≡ rules.stated (home_of home.now) world.now (place_at (home_of home.now) aspect.now.name) word (option_map (item_of expr) aspect.now.value)) }
{
    let place = home.place_at(aspect.name);
    match &aspect.value {
        Some(item) => value_stated(alloc, home, world, place, word, item),
        None => Ok(without_value(place, word)),
    }
}

/// An aspect of the first declaration or of another, after others.
fn aspect_found(
    alloc: Global,
    home: &Home,
    world: &World,
    first: bool,
    before: Standing,
    aspect: &Aspect,
) -> Result<Found<Stated>, Starved>
    ensures { IfOk result (λ f. (numbers : List ℕ) → HasAspects before numbers
        → f ≡ rules.aspect_found (home_of home.now) world.now first numbers (aspect_of aspect.now)) }
{
    let word = home.file.word(aspect.name.from);
    let stated = stated(alloc, home, world, aspect, word)?;
    Ok(where_allowed(
        before.may_stand(first, word),
        home.place_at(aspect.span),
        stated,
    ))
}

/// What the aspects of a declaration state: `first` where it is the first of what it declares, on which contracts stand. `Err`
/// where memory was refused.
pub fn aspects_found(
    alloc: Global,
    home: &Home,
    world: &World,
    first: bool,
    aspects: &[Aspect],
) -> Result<Items<Found<Stated>>, Starved>
    ensures { IfOk result (λ fs. fs ≡ rules.aspects_found (home_of home.now) world.now first [] (map aspect_of aspects.now)) }
{
    let mut standing = Standing::none();
    let mut found = Items::new(alloc);
    for aspect in aspects {
        let stated = aspect_found(alloc, home, world, first, standing, aspect)?;
        found.push(stated)?;
        standing = standing.after(home.file.word(aspect.name.from));
    }
    Ok(found)
}
