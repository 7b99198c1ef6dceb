//! What a declaration of objects enters into a program under typing, and what is told of it. Each expression is read once.

ghost use Rattle.std.specs.Prelude.{◌≡◌, None, Some, IfOk, OnOk};
ghost use Rattle.std.specs.Option.{option_map};
ghost use Rattle.program_scope.specs.Homes.{home_of};
ghost use Rattle.sound_subtypes.specs.Sound.{IfIs, IsSound};
ghost use Rattle.statement_typing.specs.Files.{scope};
ghost use Rattle.statement_typing.specs.Objects as objects;
ghost use Rattle.statement_typing.specs.Tellings as tellings;
ghost use Rattle.syntax_view.specs.View.{expr, object_of, sub_ind};
ghost use Rattle.type_base.specs.declared.seen.Moment.TheVariants.{Elsewhere};

use ada_syntax::{Expr as Tree, Object, SubInd};
use ada_text::Span;
use ada_values::Place;
use first_told::tell;
use object_values::{found_settled, number_read, object_value};
use program_draft::entered_by;
use program_scope::Home;
use statement_typing::{Draft, Noted};
use std::alloc::Global;
use subprogram_draft::{with_number, with_objects, with_package_objects};
use subtype_reader::object_subtype;
use type_base::{Moment, Refusal, Starved, World};
use typed_units::{Expr, Fitted};
use typing_rules::Found;

/// Named numbers. `Err` where memory was refused.
fn number_declared(
    alloc: Global,
    home: &Home,
    names: &[Span],
    value: &Option<Tree>,
    draft: &mut Draft,
    told: Option<Refusal>,
) -> Result<Option<Refusal>, Starved>
    ensures program { OnOk result (draft.new ≡ objects.number_declared (home_of home.now) names.now (option_map expr value.now) draft.old) }
    ensures told { IfOk result (λ t. t ≡ tellings.number_told (home_of home.now) (option_map expr value.now) draft.old told) }
{
    let Some(e) = value else {
        return Ok(told);
    };
    let found = number_read(alloc, home, &draft.world, e)?;
    with_number(alloc, home, names, &found, draft)?;
    Ok(tell(told, &found))
}

/// The subtype of objects whose declaration begins at a place. `Err` where memory was refused.
fn subtype_read(
    alloc: Global,
    home: &Home,
    world: &World,
    place: Place,
    sub: &SubInd,
) -> Result<Found<Noted>, Starved>
    ensures found { IfOk result (λ f. f ≡ objects.object_subtype (scope (home_of home.now) Elsewhere world.now) place (sub_ind sub.now)) }
    ensures sound { IfOk result (λ f. IfIs IsSound f) }
{
    world.subtypes.are_sound();
    object_subtype(alloc, &home.scope(Moment::Elsewhere, world), place, sub)
}

/// Objects of a subprogram, whose value was found. `Err` where memory was refused.
fn local_entered(
    alloc: Global,
    home: &Home,
    constant: bool,
    names: &[Span],
    subtype: u32,
    value: &Found<Option<Fitted<Expr>>>,
    draft: &mut Draft,
    told: Option<Refusal>,
) -> Result<Option<Refusal>, Starved>
    ensures program { OnOk result (draft.new ≡ objects.with_objects (home_of home.now) constant names.now subtype value.now draft.old) }
    ensures told { IfOk result (λ t. t ≡ tellings.told told value.now) }
{
    with_objects(alloc, home, constant, names, subtype, value, draft)?;
    Ok(tell(told, value))
}

/// Objects of a package, whose value was found: the value itself is asked for. `Err` where memory was refused.
fn settled_entered(
    alloc: Global,
    home: &Home,
    constant: bool,
    names: &[Span],
    subtype: u32,
    tree: &Option<Tree>,
    value: &Found<Option<Fitted<Expr>>>,
    draft: &mut Draft,
    told: Option<Refusal>,
) -> Result<Option<Refusal>, Starved>
    ensures program { OnOk result (draft.new ≡ objects.object_entered (home_of home.now) None constant names.now (option_map expr tree.now) value.now (record { number = subtype; draft = draft.old })) }
    ensures told { IfOk result (λ t. t ≡ tellings.value_told None (objects.present (home_of home.now) draft.old) (option_map expr tree.now) value.now told) }
{
    let settled = found_settled(alloc, home, &draft.world, tree, value)?;
    match with_package_objects(alloc, home, constant, names, subtype, &settled, draft) {
        Ok(()) => {
            let told = tell(told, &settled);
            drop(settled);
            Ok(told)
        }
        Err(error) => {
            drop(settled);
            Err(error)
        }
    }
}

/// Objects whose value was found, by where they are declared. `Err` where memory was refused.
fn object_entered(
    alloc: Global,
    home: &Home,
    constant: bool,
    names: &[Span],
    subtype: u32,
    tree: &Option<Tree>,
    value: &Found<Option<Fitted<Expr>>>,
    draft: &mut Draft,
    told: Option<Refusal>,
) -> Result<Option<Refusal>, Starved>
    ensures program { OnOk result (draft.new ≡ objects.object_entered (home_of home.now) home.now.own constant names.now (option_map expr tree.now) value.now (record { number = subtype; draft = draft.old })) }
    ensures told { IfOk result (λ t. t ≡ tellings.value_told home.now.own (objects.present (home_of home.now) draft.old) (option_map expr tree.now) value.now told) }
{
    match home.own {
        Some(_) => local_entered(alloc, home, constant, names, subtype, value, draft, told),
        None => settled_entered(
            alloc, home, constant, names, subtype, tree, value, draft, told,
        ),
    }
}

/// Objects of a subtype that was found and has this number. `Err` where memory was refused.
fn object_beside(
    alloc: Global,
    home: &Home,
    place: Place,
    constant: bool,
    names: &[Span],
    tree: &Option<Tree>,
    found: &Found<Noted>,
    subtype: u32,
    draft: &mut Draft,
    told: Option<Refusal>,
) -> Result<Option<Refusal>, Starved>
    ensures program { OnOk result (draft.new ≡ objects.object_with (home_of home.now) place constant names.now (option_map expr tree.now) found.now (record { number = subtype; draft = draft.old })) }
    ensures told { IfOk result (λ t. t ≡ tellings.value_told home.now.own (objects.present (home_of home.now) draft.old) (option_map expr tree.now) (objects.object_value (home_of home.now) place constant (option_map expr tree.now) found.now (record { number = subtype; draft = draft.old })) told) }
{
    let world = &draft.world;
    let value = object_value(alloc, home, world, place, constant, tree, found, subtype)?;
    match object_entered(
        alloc, home, constant, names, subtype, tree, &value, draft, told,
    ) {
        Ok(told) => {
            drop(value);
            Ok(told)
        }
        Err(error) => {
            drop(value);
            Err(error)
        }
    }
}

/// Objects with a subtype. `Err` where memory was refused.
fn object_with(
    alloc: Global,
    home: &Home,
    place: Place,
    names: &[Span],
    constant: bool,
    sub: &SubInd,
    tree: &Option<Tree>,
    draft: &mut Draft,
    told: Option<Refusal>,
) -> Result<Option<Refusal>, Starved>
    ensures program { OnOk result (draft.new ≡ objects.object_declared_as (home_of home.now) place names.now constant (Some (sub_ind sub.now)) (option_map expr tree.now) draft.old) }
    ensures told { IfOk result (λ t. t ≡ tellings.object_told_as (home_of home.now) place constant (Some (sub_ind sub.now)) (option_map expr tree.now) draft.old told) }
{
    let found = subtype_read(alloc, home, &draft.world, place, sub)?;
    let subtype = entered_by(&found, draft)?;
    object_beside(
        alloc, home, place, constant, names, tree, &found, subtype, draft, told,
    )
}

/// Objects or named numbers with these names, whose declaration begins at `place`. Gives the first refusal of those that were told
/// and of this one. `Err` where memory was refused, as it is for 2^32 subtypes, constants or local objects, and for a static
/// aggregate of 2^32 components or more.
pub fn object_declared(
    alloc: Global,
    home: &Home,
    place: Place,
    names: &[Span],
    object: &Object,
    draft: &mut Draft,
    told: Option<Refusal>,
) -> Result<Option<Refusal>, Starved>
    ensures program { OnOk result (draft.new ≡ objects.object_declared (home_of home.now) place names.now (object_of object.now) draft.old) }
    ensures told { IfOk result (λ t. t ≡ tellings.object_told (home_of home.now) place (object_of object.now) draft.old told) }
{
    let value = &object.value;
    match &object.subtype {
        None => number_declared(alloc, home, names, value, draft, told),
        Some(sub) => {
            let constant = object.constant;
            object_with(alloc, home, place, names, constant, sub, value, draft, told)
        }
    }
}
