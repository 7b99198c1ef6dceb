//! Headings as they are entered into a program (Ada RM 6.1, 6.1.1).

ghost use Rattle.std.specs.Prelude.{◌≡◌, [], true, false, map, IfOk, OnOk};
ghost use Rattle.program_scope.specs.Homes.{home_of};
ghost use Rattle.routine_reader.specs.Headings.{heading_with, profiled, told_with};
ghost use Rattle.statement_typing.specs.Aspects as rules;
ghost use Rattle.statement_typing.specs.Files.{scope};
ghost use Rattle.statement_typing.specs.Objects.{present};
ghost use Rattle.statement_typing.specs.Routines as routines;
ghost use Rattle.statement_typing.specs.Tellings as tellings;
ghost use Rattle.statement_typing.specs.Units as units;
ghost use Rattle.subprogram_draft.specs.Counted.{contract_with};
ghost use Rattle.syntax_view.specs.View.{aspect_of, heading_of};
ghost use Rattle.type_base.specs.declared.seen.Moment.TheVariants as moment';

use crate::profiles::profile;
use ada_syntax::{Aspect, Decl, Sub};
use aspect_reader::aspects_found;
use first_told::{each_told, tell};
use front_codes::Refusal;
use program_scope::Home;
use statement_typing::{Draft, Profile};
use std::alloc::Global;
use subprogram_draft::{with_contract, with_profile};
use text_numbers::{contract_indexes, numbered};
use type_base::{Moment, Starved, World};
use typing_rules::Found;

fn profile_at(
    alloc: Global,
    home: &Home,
    world: &World,
    sub: &Sub<Decl>,
) -> Result<Found<Profile>, Starved>
    ensures { IfOk result (λ f. f ≡ routines.profile (scope (home_of home.now) moment'.Elsewhere world.now) (heading_of sub.now)) }
{
    profile(alloc, &home.scope(Moment::Elsewhere, world), sub)
}

/// The profile of a subprogram is entered, which is read by the home of its contract.
fn declare_profile(
    alloc: Global,
    home: &Home,
    contract: &Home,
    routine: u32,
    sub: &Sub<Decl>,
    draft: &mut Draft,
    told: Option<Refusal>,
) -> Result<Option<Refusal>, Starved>
    ensures program { OnOk result (draft.new ≡ profiled (home_of home.now) (home_of contract.now) routine (heading_of sub.now) draft.old) }
    ensures refusal { IfOk result (λ t. t ≡ tellings.told told (routines.profile (present (home_of contract.now) draft.old) (heading_of sub.now))) }
{
    let found = profile_at(alloc, contract, &draft.world, sub)?;
    let told = tell(told, &found);
    let done = with_profile(alloc, home, routine, sub.name, &found, draft);
    drop(found);
    done?;
    Ok(told)
}

/// The contract of a subprogram is entered, with how many indexes it has.
fn declare_contract(
    alloc: Global,
    contract: &Home,
    routine: u32,
    aspects: &[Aspect],
    indexes: u32,
    draft: &mut Draft,
    told: Option<Refusal>,
) -> Result<Option<Refusal>, Starved>
    ensures program { OnOk result (draft.new ≡ contract_with routine (rules.aspects_found (home_of contract.now) draft.old.world true [] (map aspect_of aspects.now)) indexes draft.old) }
    ensures refusal { IfOk result (λ t. t ≡ tellings.each_told told (rules.aspects_found (home_of contract.now) draft.old.world true [] (map aspect_of aspects.now))) }
{
    let found = aspects_found(alloc, contract, &draft.world, true, aspects)?;
    let told = each_told(told, found.as_slice());
    with_contract(alloc, routine, found.as_slice(), indexes, draft)?;
    Ok(told)
}

/// A heading whose contract has a home of its own and so many indexes.
fn declare_heading(
    alloc: Global,
    home: &Home,
    contract: &Home,
    routine: u32,
    sub: &Sub<Decl>,
    indexes: u32,
    draft: &mut Draft,
    told: Option<Refusal>,
) -> Result<Option<Refusal>, Starved>
    ensures program { OnOk result (draft.new ≡ heading_with (home_of home.now) (home_of contract.now) routine (heading_of sub.now) indexes draft.old) }
    ensures refusal { IfOk result (λ t. t ≡ told_with (home_of home.now) (home_of contract.now) routine (heading_of sub.now) draft.old told) }
{
    let told = declare_profile(alloc, home, contract, routine, sub, draft, told)?;
    declare_contract(
        alloc,
        contract,
        routine,
        sub.aspects.as_slice(),
        indexes,
        draft,
        told,
    )
}

/// What is told of the aspects of a package, or of another declaration of a subprogram, on which no contract may stand. `Err`
/// where memory was refused.
pub fn package_aspects(
    alloc: Global,
    home: &Home,
    world: &World,
    aspects: &[Aspect],
    told: Option<Refusal>,
) -> Result<Option<Refusal>, Starved>
    ensures { IfOk result (λ t. t ≡ tellings.each_told told (rules.aspects_found (home_of home.now) world.now false [] (map aspect_of aspects.now))) }
{
    let found = aspects_found(alloc, home, world, false, aspects)?;
    Ok(each_told(told, found.as_slice()))
}

/// The heading of a subprogram is entered where it is the first of it (`first`); another adds nothing. Gives what is told after it.
/// `Err` where memory was refused, as it is where the program has 2^32 formal parameters or the contract 2^32 indexes.
pub fn with_heading(
    alloc: Global,
    home: &Home,
    first: bool,
    routine: u32,
    sub: &Sub<Decl>,
    draft: &mut Draft,
    told: Option<Refusal>,
) -> Result<Option<Refusal>, Starved>
    ensures program { OnOk result (draft.new ≡ units.with_heading first (home_of home.now) routine (heading_of sub.now) draft.old) }
    ensures refusal { IfOk result (λ t. t ≡ tellings.with_heading_told first (home_of home.now) routine (heading_of sub.now) draft.old told) }
{
    let aspects = sub.aspects.as_slice();
    let indexes = contract_indexes(alloc, home.file, aspects)?;
    let Ok(count) = u32::try_from(indexes.len()) else {
        return Err(Starved);
    };
    let numbers = numbered(alloc, 0, indexes.as_slice(), &[], &[])?;
    let contract = Home {
        file: home.file,
        own: Some(routine),
        numbers: &numbers,
        globals: home.globals,
        routines: home.routines,
    };
    if first {
        declare_heading(alloc, home, &contract, routine, sub, count, draft, told)
    } else {
        package_aspects(alloc, &contract, &draft.world, aspects, told)
    }
}
