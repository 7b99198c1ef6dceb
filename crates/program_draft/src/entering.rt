//! What identifiers stand for.

ghost use Rattle.std.specs.Prelude.{◌≡◌, OnOk};
ghost use Rattle.statement_typing.specs.Drafts as drafts;

use ada_text::Span;
use name_library::Spot;
use statement_typing::Draft;
use std::alloc::{AllocError, Global};
use type_base::Entity;

/// The identifier at a span of a file stands for this. `Err` where memory was refused.
pub fn declare(
    alloc: Global,
    file: u32,
    name: Span,
    entity: Entity,
    draft: &mut Draft,
) -> Result<(), AllocError>
    ensures { OnOk result (draft.new ≡ drafts.declare file name entity draft.old) }
{
    let spot = Spot {
        file,
        at: name.from,
    };
    draft.world.entities.put(alloc, spot, entity)
}

/// Each of the identifiers of one declaration stands for this. `Err` where memory was refused.
pub fn declare_all(
    alloc: Global,
    file: u32,
    names: &[Span],
    entity: Entity,
    draft: &mut Draft,
) -> Result<(), AllocError>
    ensures { OnOk result (draft.new ≡ drafts.declare_all file names.now entity draft.old) }
{
    for name in names {
        declare(alloc, file, *name, entity, draft)?;
    }
    Ok(())
}

/// The identifiers are the literals of the enumeration of this number, in the order of their positions. `Err` where memory was
/// refused.
pub fn declare_literals(
    alloc: Global,
    file: u32,
    subtype: u32,
    names: &[Span],
    draft: &mut Draft,
) -> Result<(), AllocError>
    ensures { OnOk result (draft.new ≡ drafts.declare_literals file subtype 0 names.now draft.old) }
{
    for (position, name) in names.iter().enumerate() {
        let literal = Entity::Literal(subtype, position as i128);
        declare(alloc, file, *name, literal, draft)?;
    }
    Ok(())
}
