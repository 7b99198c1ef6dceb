//! Declarations without declarations in them: types, subtypes and pragmas (Ada RM 2.8, 3.2.1, 3.2.2).

ghost use Rattle.std.specs.Prelude.{◌≡◌, IfOk, OnOk};
ghost use Rattle.front_codes.specs.declared.codes.Code.TheVariants.{L20};
ghost use Rattle.program_scope.specs.Homes.{home_of};
ghost use Rattle.statement_typing.specs.Files.{scope};
ghost use Rattle.statement_typing.specs.Objects.{present};
ghost use Rattle.statement_typing.specs.Statements.{nothing, pragma_by, stmt_at};
ghost use Rattle.statement_typing.specs.Subtypes.{indicated};
ghost use Rattle.statement_typing.specs.Tellings as tellings;
ghost use Rattle.statement_typing.specs.Types.{definition};
ghost use Rattle.statement_typing.specs.Units as units;
ghost use Rattle.syntax_view.specs.View.{pragma_of, sub_ind, type_form_of};
ghost use Rattle.type_base.specs.declared.seen.Moment.TheVariants as moment;

use crate::Starved;
use ada_syntax::{Pragma, SubInd, TypeForm};
use ada_text::Span;
use ada_values::Place;
use first_told::tell;
use program_draft::{with_definition, with_indication};
use program_scope::Home;
use statement_reader::pragma_by;
use statement_rules::{Around, Returns, stmt_at};
use statement_typing::{Definition, Draft, Noted};
use std::alloc::Global;
use subprogram_draft::with_opening;
use subtype_reader::indicated;
use type_base::{Code, Moment, Refusal, World};
use type_reader::definition;
use typed_units::{Action, Stmt};
use typing_rules::Found;

/// The names of an enumeration's literals.
fn literals_of(form: &TypeForm) -> &[Span]
    ensures { result.now ≡ units.literals_of (type_form_of form.now) }
{
    match form {
        TypeForm::Enumeration(names) => names.as_slice(),
        _ => &[],
    }
}

fn type_found(
    alloc: Global,
    home: &Home,
    world: &World,
    form: &TypeForm,
) -> Result<Found<Definition>, Starved>
    ensures { IfOk result (λ found. found ≡ definition (scope (home_of home.now) moment.Elsewhere world.now) (type_form_of form.now)) }
{
    definition(alloc, &home.scope(Moment::Elsewhere, world), form)
}

/// A type is declared. `Err` where memory was refused.
#[tactic(auto, using(sound_subtypes::proofs::Kept::sound_definition))]
pub(crate) fn type_declared(
    alloc: Global,
    home: &Home,
    name: Span,
    form: &TypeForm,
    draft: &mut Draft,
    told: Option<Refusal>,
) -> Result<Option<Refusal>, Starved>
    ensures draft { OnOk result (draft.new ≡ units.with_definition (home_of home.now) name (units.literals_of (type_form_of form.now)) (definition (present (home_of home.now) draft.old) (type_form_of form.now)) draft.old) }
    ensures told { IfOk result (λ t. t ≡ tellings.told told (definition (present (home_of home.now) draft.old) (type_form_of form.now))) }
{
    draft.world.subtypes.are_sound();
    let found = type_found(alloc, home, &draft.world, form)?;
    let told = tell(told, &found);
    let entered = with_definition(alloc, home, name, literals_of(form), &found, draft);
    drop(found);
    match entered {
        Ok(()) => Ok(told),
        Err(error) => Err(error),
    }
}

fn subtype_found(
    alloc: Global,
    home: &Home,
    world: &World,
    subtype: &SubInd,
) -> Result<Found<Noted>, Starved>
    ensures { IfOk result (λ found. found ≡ indicated (scope (home_of home.now) moment.Elsewhere world.now) L20 (sub_ind subtype.now)) }
{
    indicated(
        alloc,
        &home.scope(Moment::Elsewhere, world),
        Code::L20,
        subtype,
    )
}

/// A subtype is declared. `Err` where memory was refused.
#[tactic(auto, using(sound_subtypes::proofs::Kept::sound_indication))]
pub(crate) fn subtype_declared(
    alloc: Global,
    home: &Home,
    name: Span,
    subtype: &SubInd,
    draft: &mut Draft,
    told: Option<Refusal>,
) -> Result<Option<Refusal>, Starved>
    ensures draft { OnOk result (draft.new ≡ units.with_indication (home_of home.now) name (indicated (present (home_of home.now) draft.old) L20 (sub_ind subtype.now)) draft.old) }
    ensures told { IfOk result (λ t. t ≡ tellings.told told (indicated (present (home_of home.now) draft.old) L20 (sub_ind subtype.now))) }
{
    draft.world.subtypes.are_sound();
    let found = subtype_found(alloc, home, &draft.world, subtype)?;
    let told = tell(told, &found);
    match with_indication(alloc, home, name, &found, draft) {
        Ok(()) => Ok(told),
        Err(error) => Err(error),
    }
}

/// What a pragma of a declarative part is.
fn pragma_found(
    alloc: Global,
    home: &Home,
    world: &World,
    place: Place,
    pragma: &Pragma,
) -> Result<Found<Action<Stmt>>, Starved>
    ensures { IfOk result (λ found. found ≡ pragma_by (units.around (home_of home.now) nothing world.now) place ((home_of home.now).file.word pragma.now.name.from) (pragma_of pragma.now).args) }
{
    let scope = home.scope(Moment::Elsewhere, world);
    let around = Around {
        scope: &scope,
        returns: &Returns::Nothing,
        inner: None,
    };
    let word = home.file.word(pragma.name.from);
    pragma_by(alloc, &around, place, word, pragma.args.as_slice())
}

/// A pragma of a subprogram's declarative part is a statement of its opening.
fn pragma_in_body(
    alloc: Global,
    home: &Home,
    place: Place,
    pragma: &Pragma,
    draft: &mut Draft,
    told: Option<Refusal>,
) -> Result<Option<Refusal>, Starved>
    ensures draft { OnOk result (draft.new ≡ units.with_opening (stmt_at place (pragma_by (units.around (home_of home.now) nothing draft.old.world) place ((home_of home.now).file.word pragma.now.name.from) (pragma_of pragma.now).args)) draft.old) }
    ensures told { IfOk result (λ t. t ≡ tellings.told told (pragma_by (units.around (home_of home.now) nothing draft.old.world) place ((home_of home.now).file.word pragma.now.name.from) (pragma_of pragma.now).args)) }
{
    let found = pragma_found(alloc, home, &draft.world, place, pragma)?;
    let told = tell(told, &found);
    with_opening(stmt_at(alloc, place, found)?, draft)?;
    Ok(told)
}

/// A pragma stands among declarations; one of a package is passed over. `Err` where memory was refused.
pub(crate) fn pragma_declared(
    alloc: Global,
    home: &Home,
    place: Place,
    pragma: &Pragma,
    draft: &mut Draft,
    told: Option<Refusal>,
) -> Result<Option<Refusal>, Starved>
    ensures draft { OnOk result (draft.new ≡ units.pragma_declared (home_of home.now) (home_of home.now).own place (pragma_of pragma.now) draft.old) }
    ensures told { IfOk result (λ t. t ≡ tellings.pragma_told (home_of home.now) (home_of home.now).own place (pragma_of pragma.now) draft.old told) }
{
    match home.own {
        None => Ok(told),
        Some(_) => pragma_in_body(alloc, home, place, pragma, draft, told),
    }
}
