//! What aspects state of a subprogram (Ada RM 6.1.1, SPARK RM 6.1.4).

ghost use Rattle.std.specs.Prelude.{◌≡◌, IfOk, OnOk};
ghost use Rattle.statement_typing.specs.Aspects.{with_aspects, with_found_aspect, with_stated};
ghost use Rattle.subprogram_draft.specs.Counted.{contract_with};

use crate::Starved;
use crate::changes::{Change, change_routine};
use expression_copies::copy_expression;
use sqlite_items::Items;
use statement_typing::{Draft, Stated};
use std::alloc::Global;
use typed_units::{Contract, GlobalAspect};
use typing_rules::Found;

/// A copy of a contract.
fn copy_contract(alloc: Global, contract: &Contract) -> Result<Contract, Starved>
    ensures { IfOk result (λ c. c ≡ contract.now) }
{
    match copy_expression(alloc, &contract.condition) {
        Ok(condition) => Ok(Contract {
            place: contract.place,
            condition,
        }),
        Err(error) => Err(error),
    }
}

/// A copy of a stated `Global`.
fn copy_aspect(alloc: Global, aspect: &GlobalAspect) -> Result<GlobalAspect, Starved>
    ensures { IfOk result (λ c. c ≡ aspect.now) }
{
    match Items::from_slice(alloc, aspect.items.as_slice()) {
        Ok(items) => Ok(GlobalAspect {
            place: aspect.place,
            items,
        }),
        Err(error) => Err(error),
    }
}

/// A subprogram with what an aspect states. `Err` where memory was refused.
fn with_stated(
    alloc: Global,
    routine: u32,
    stated: &Stated,
    draft: &mut Draft,
) -> Result<(), Starved>
    ensures { OnOk result (draft.new ≡ with_stated routine stated.now draft.old) }
{
    let made = match stated {
        Stated::Pre(contract) => Change::Pre(copy_contract(alloc, contract)?),
        Stated::Post(contract) => Change::Post(copy_contract(alloc, contract)?),
        Stated::Global(aspect) => Change::Global(copy_aspect(alloc, aspect)?),
        Stated::Nothing => return Ok(()),
    };
    change_routine(alloc, routine, made, &mut draft.subs)
}

/// A subprogram with what is found of an aspect. `Err` where memory was refused.
fn with_found_aspect(
    alloc: Global,
    routine: u32,
    stated: &Found<Stated>,
    draft: &mut Draft,
) -> Result<(), Starved>
    ensures { OnOk result (draft.new ≡ with_found_aspect routine stated.now draft.old) }
{
    match stated {
        Found::Is(stated) => with_stated(alloc, routine, stated, draft),
        Found::Unknown | Found::Refused(_) => Ok(()),
    }
}

/// A subprogram with what is found of its aspects, of two of one name the latter. `Err` where memory was refused.
pub fn with_aspects(
    alloc: Global,
    routine: u32,
    aspects: &[Found<Stated>],
    draft: &mut Draft,
) -> Result<(), Starved>
    ensures { OnOk result (draft.new ≡ with_aspects routine aspects.now draft.old) }
{
    for stated in aspects {
        with_found_aspect(alloc, routine, stated, draft)?;
    }
    Ok(())
}

/// A subprogram with what is found of its aspects, whose contract has so many indexes of quantified expressions. `Err` where
/// memory was refused.
pub fn with_contract(
    alloc: Global,
    routine: u32,
    aspects: &[Found<Stated>],
    indexes: u32,
    draft: &mut Draft,
) -> Result<(), Starved>
    ensures { OnOk result (draft.new ≡ contract_with routine aspects.now indexes draft.old) }
{
    with_aspects(alloc, routine, aspects, draft)?;
    change_routine(alloc, routine, Change::Indexes(indexes), &mut draft.subs)
}
