//! `Global`: the globals that it lists, each once (SPARK RM 6.1.4).

ghost use Rattle.std.specs.Prelude.{◌≡◌, ℕ, List, [], IfOk, OnOk};
ghost use Rattle.program_scope.specs.Homes.{home_of};
ghost use Rattle.reading_scope.specs.Scopes.{scope_of};
ghost use Rattle.routine_rules.specs.Standing.{HasGlobals};
ghost use Rattle.statement_typing.specs.Aspects as aspects;
ghost use Rattle.statement_typing.specs.Checks.{all_of};
ghost use Rattle.syntax_view.specs.View.{expr, item_of};

use crate::listed::globals_in;
use ada_syntax::{Expr as Tree, Item};
use front_codes::Code;
use name_values::added;
use program_scope::Home;
use reading_scope::Scope;
use sqlite_items::Items;
use statement_rules::refuse;
use statement_typing::Listed;
use std::alloc::Global;
use std::collections::BTreeSet;
use type_base::Starved;
use typed_units::GlobalItem;
use typing_rules::Found;

/// A global that is listed after others: L30 is broken where it is one of them.
fn fresh(seen: &BTreeSet<u32>, listed: &Found<Listed>) -> Found<GlobalItem>
    ensures { (globals : List ℕ) → HasGlobals seen.now globals → result ≡ aspects.fresh globals listed.now }
{
    match listed {
        Found::Is(listed) => {
            if seen.contains(&listed.item.global) {
                refuse(Code::L30, listed.place)
            } else {
                Found::Is(listed.item)
            }
        }
        Found::Unknown => Found::Unknown,
        Found::Refused(refusal) => Found::Refused(*refusal),
    }
}

/// One global more has been listed.
fn note(seen: &mut BTreeSet<u32>, listed: &Found<Listed>) -> Result<(), Starved>
    ensures { OnOk result ((globals : List ℕ) → HasGlobals seen.old globals
        → HasGlobals seen.new (aspects.globals_after globals listed.now)) }
{
    if let Found::Is(listed) = listed {
        seen.insert(listed.item.global)?;
    }
    Ok(())
}

/// All of what is listed, each global once. In the time that the sorting of the list takes.
fn distinct(alloc: Global, listed: &[Found<Listed>]) -> Result<Found<Items<GlobalItem>>, Starved>
    ensures { IfOk result (λ f. f ≡ all_of (aspects.distinct [] listed.now)) }
{
    let mut seen = BTreeSet::new(alloc);
    let mut items = Found::Is(Items::new(alloc));
    for found in listed {
        items = added(items, fresh(&seen, found))?;
        if let Err(error) = note(&mut seen, found) {
            drop(items);
            return Err(error);
        }
    }
    Ok(items)
}

/// The globals that the value of `Global` lists. `Err` where memory was refused.
pub fn global_items(
    alloc: Global,
    home: &Home,
    scope: &Scope,
    item: &Item<Tree>,
) -> Result<Found<Items<GlobalItem>>, Starved>
    ensures { IfOk result (λ f. f ≡ all_of (aspects.global_items (home_of home.now) (scope_of scope.now) (item_of expr item.now))) }
{
    let listed = globals_in(alloc, home, scope, item)?;
    distinct(alloc, listed.as_slice())
}
