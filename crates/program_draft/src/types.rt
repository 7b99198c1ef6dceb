//! The definitions of types.

ghost use Rattle.std.specs.Prelude.{◌≡◌, length, IfOk, OnOk};
ghost use Rattle.std.specs.List.{All};
ghost use Rattle.ada_values.specs.Scalars.{IsModulus};
ghost use Rattle.program_draft.specs.Integers.{with_integer};
ghost use Rattle.program_scope.specs.Homes.{file_of};
ghost use Rattle.sound_subtypes.specs.Sound.{IsSound, IsSoundDefinition, IsSoundGroup};
ghost use Rattle.statement_typing.specs.Drafts as drafts;
ghost use Rattle.type_base.specs.Moduli.{HasModulusIn};

use crate::subtypes::{entered, next_subtype, with_subtype};
use ada_text::Span;
use ada_values::{NameText, Scalar};
use program_scope::File;
use statement_typing::{Definition, Draft, Group, Indexes, Noted};
use std::alloc::{AllocError, Global};
use type_base::{Component, Discrete, Form, Subtype};

/// Components of a record with these names and this subtype. `Err` where memory was refused.
fn with_components(
    file: &File,
    names: &[Span],
    subtype: u32,
    draft: &mut Draft,
) -> Result<(), AllocError>
    ensures { OnOk result (draft.new ≡ drafts.with_components (file_of file.now).name names.now subtype draft.old) }
{
    for name in names {
        let component = Component {
            name: file.name(name.from),
            subtype,
        };
        draft.world.components.push(component)?;
    }
    Ok(())
}

/// The components of a record that have one subtype. `Err` where memory was refused, as it is where there are 2^32 subtypes.
fn with_group(file: &File, group: &Group, draft: &mut Draft) -> Result<(), AllocError>
    requires { IsSoundGroup group.now }
    ensures { OnOk result (draft.new ≡ drafts.with_group (file_of file.now).name group.now.names (drafts.entered group.now.subtype draft.old)) }
{
    let subtype = entered(group.subtype, draft)?;
    with_components(file, group.names.as_slice(), subtype, draft)
}

/// The components of a record. `Err` where memory was refused, as it is where there are 2^32 subtypes.
fn with_groups(file: &File, groups: &[Group], draft: &mut Draft) -> Result<(), AllocError>
    requires { All IsSoundGroup groups.now }
    ensures { OnOk result (draft.new ≡ drafts.with_groups (file_of file.now).name groups.now draft.old) }
{
    for group in groups {
        with_group(file, group, draft)?;
    }
    Ok(())
}

/// The number of a type's first subtype, which stands for the type. `Err` where memory was refused, as it is where there are
/// 2^32 subtypes.
fn with_first(alloc: Global, name: &[u8], form: Form, draft: &mut Draft) -> Result<u32, AllocError>
    requires { HasModulusIn form }
    ensures number { IfOk result (λ number. number ≡ (drafts.with_first name.now form draft.old).number) }
    ensures program { OnOk result (draft.new ≡ (drafts.with_first name.now form draft.old).draft) }
{
    let number = next_subtype(draft)?;
    let name = NameText::from_bytes(alloc, name)?;
    with_subtype(Some(name), Subtype { of: number, form }, draft)?;
    Ok(number)
}

/// The number of a record type whose components are those from `first` on. `Err` where memory was refused, as it is where
/// there are 2^32 components or subtypes.
fn with_record(alloc: Global, name: &[u8], first: u32, draft: &mut Draft) -> Result<u32, AllocError>
    ensures number { IfOk result (λ number. number ≡ (drafts.with_record name.now first draft.old).number) }
    ensures program { OnOk result (draft.new ≡ (drafts.with_record name.now first draft.old).draft) }
{
    let Ok(end) = u32::try_from(draft.world.components.len()) else {
        return Err(AllocError);
    };
    let form = Form::Record {
        first,
        count: end.saturating_sub(first),
    };
    with_first(alloc, name, form, draft)
}

/// The number of an array type. `Err` where memory was refused, as it is where there are 2^32 subtypes.
fn with_array(
    alloc: Global,
    name: &[u8],
    indexes: Indexes,
    item: Noted,
    draft: &mut Draft,
) -> Result<u32, AllocError>
    requires { IsSound item }
    ensures number { IfOk result (λ number. number ≡ (drafts.with_array name.now indexes (drafts.entered item draft.old)).number) }
    ensures program { OnOk result (draft.new ≡ (drafts.with_array name.now indexes (drafts.entered item draft.old)).draft) }
{
    let item = entered(item, draft)?;
    let form = Form::Array {
        index: indexes.subtype,
        bounds: indexes.bounds,
        item,
    };
    with_first(alloc, name, form, draft)
}

/// The number of an integer type's first subtype, which stands after an entry with the base range. `Err` where memory was
/// refused, as it is where there are 2^32 - 1 subtypes.
fn with_integer(
    alloc: Global,
    name: &[u8],
    class: Discrete,
    scalar: Scalar,
    draft: &mut Draft,
) -> Result<u32, AllocError>
    requires { IsModulus scalar.modulus }
    ensures number { IfOk result (λ number. number ≡ (with_integer name.now class scalar draft.old).number) }
    ensures program { OnOk result (draft.new ≡ (with_integer name.now class scalar draft.old).draft) }
{
    let of = next_subtype(draft)?;
    let Some(number) = of.checked_add(1) else {
        return Err(AllocError);
    };
    let base = Scalar {
        lo: scalar.base_lo,
        hi: scalar.base_hi,
        ..scalar
    };
    let form = Form::Number(class, base);
    with_subtype(None, Subtype { of, form }, draft)?;
    let name = NameText::from_bytes(alloc, name)?;
    let form = Form::Number(class, scalar);
    with_subtype(Some(name), Subtype { of, form }, draft)?;
    Ok(number)
}

/// The number of a record type with these components. `Err` where memory was refused, as it is where there are 2^32 components
/// or subtypes.
fn with_record_of(
    alloc: Global,
    file: &File,
    name: &[u8],
    groups: &[Group],
    draft: &mut Draft,
) -> Result<u32, AllocError>
    requires { All IsSoundGroup groups.now }
    ensures number { IfOk result (λ number. number ≡ (drafts.with_record name.now (length draft.old.world.components) (drafts.with_groups (file_of file.now).name groups.now draft.old)).number) }
    ensures program { OnOk result (draft.new ≡ (drafts.with_record name.now (length draft.old.world.components) (drafts.with_groups (file_of file.now).name groups.now draft.old)).draft) }
{
    let Ok(first) = u32::try_from(draft.world.components.len()) else {
        return Err(AllocError);
    };
    with_groups(file, groups, draft)?;
    with_record(alloc, name, first, draft)
}

/// The number of a type's first subtype. `Err` where memory was refused, as it is where there are 2^32 components or 2^32 - 1
/// subtypes.
pub fn with_type(
    alloc: Global,
    file: &File,
    name: &[u8],
    definition: &Definition,
    draft: &mut Draft,
) -> Result<u32, AllocError>
    requires { IsSoundDefinition definition.now }
    ensures number { IfOk result (λ number. number ≡ (drafts.with_type (file_of file.now).name name.now definition.now draft.old).number) }
    ensures program { OnOk result (draft.new ≡ (drafts.with_type (file_of file.now).name name.now definition.now draft.old).draft) }
{
    match definition {
        Definition::Integer(class, scalar) => with_integer(alloc, name, *class, *scalar, draft),
        Definition::Single(form) => with_first(alloc, name, *form, draft),
        Definition::ArrayOf(indexes, item) => with_array(alloc, name, *indexes, *item, draft),
        Definition::RecordOf(groups) => {
            with_record_of(alloc, file, name, groups.as_slice(), draft)
        }
    }
}
