//! The names that `Global` lists (SPARK RM 6.1.4).

ghost use Rattle.std.specs.Prelude.{◌≡◌, ◌++◌, List, [], IfOk, OnOk};
ghost use Rattle.program_scope.specs.Homes.{home_of};
ghost use Rattle.reading_scope.specs.Scopes.{scope_of};
ghost use Rattle.routine_rules.specs.Standing.{HasModes};
ghost use Rattle.statement_typing.specs.Aspects as aspects;
ghost use Rattle.syntax_view.specs.View.{arg_of, args_of, choice_of, expr, item_of, suffixes_of, value_of};
ghost use Rattle.typed_units.specs.declared.programs.GlobalMode.{GlobalMode as Mode};

use crate::marks::mark_of;
use crate::modes::{Modes, choice_mode};
use ada_syntax::{Arg, ArgChoice, Expr as Tree, ExprNode, Item, ItemForm, Suffix};
use ada_values::Place;
use front_codes::Code;
use program_scope::Home;
use reading_scope::Scope;
use sqlite_items::Items;
use statement_rules::refuse;
use statement_typing::Listed;
use std::alloc::Global;
use type_base::{Entity, Starved};
use typed_units::{GlobalItem, GlobalMode, Object};
use typing_rules::Found;

fn listed_as(place: Place, mode: GlobalMode, entity: Entity, rest: &[Suffix<Tree>]) -> Found<Listed>
    ensures { result ≡ aspects.listed_as place mode entity (suffixes_of expr rest.now) }
{
    match rest {
        [] => match entity {
            Entity::Object(_, Object::Global(global), _) => Found::Is(Listed {
                place,
                item: GlobalItem { mode, global },
            }),
            Entity::Unknown => Found::Unknown,
            _ => refuse(Code::L30, place),
        },
        [_, ..] => refuse(Code::L30, place),
    }
}

#[tactic(auto, using(syntax_view::proofs::Forms::expr_has))]
fn listed(scope: &Scope, mode: GlobalMode, item: &Item<Tree>) -> Found<Listed>
    ensures { result ≡ aspects.listed (scope_of scope.now) mode (item_of expr item.now) }
{
    match item.form.get() {
        ItemForm::Plain(plain) => match plain.node.get() {
            ExprNode::Name(name) => {
                let mark = mark_of(scope, name);
                listed_as(scope.place(plain.span.from), mode, mark.entity, mark.rest)
            }
            _ => refuse(Code::L30, scope.place(item.span.from)),
        },
        _ => refuse(Code::L30, scope.place(item.span.from)),
    }
}

fn listed_arg(scope: &Scope, mode: GlobalMode, arg: &Arg<Tree>) -> Found<Listed>
    ensures { result ≡ aspects.listed_arg (scope_of scope.now) mode (arg_of expr arg.now) }
{
    match (&arg.choice, &arg.value) {
        (ArgChoice::Item(item), None) => listed(scope, mode, item),
        _ => refuse(Code::L30, scope.place(arg.span.from)),
    }
}

fn list_args(
    scope: &Scope,
    mode: GlobalMode,
    args: &[Arg<Tree>],
    found: &mut Items<Found<Listed>>,
) -> Result<(), Starved>
    ensures { OnOk result (found.new ≡ found.old ++ aspects.listed_args (scope_of scope.now) mode (args_of expr args.now)) }
{
    for arg in args {
        found.push(listed_arg(scope, mode, arg))?;
    }
    Ok(())
}

#[tactic(auto, using(syntax_view::proofs::Forms::expr_has))]
fn list_names(
    scope: &Scope,
    mode: GlobalMode,
    item: &Item<Tree>,
    found: &mut Items<Found<Listed>>,
) -> Result<(), Starved>
    ensures { OnOk result (found.new ≡ found.old ++ aspects.listed_names (scope_of scope.now) mode (item_of expr item.now)) }
{
    if let ItemForm::Plain(plain) = item.form.get() {
        if let ExprNode::Group(args) = plain.node.get() {
            return list_args(scope, mode, args.as_slice(), found);
        }
    }
    found.push(listed(scope, mode, item))
}

/// The association of a mode at a place, after others with these modes.
fn list_moded(
    scope: &Scope,
    place: Place,
    modes: Modes,
    mode: Option<GlobalMode>,
    value: &Option<Item<Tree>>,
    found: &mut Items<Found<Listed>>,
) -> Result<(), Starved>
    ensures { OnOk result ((stood : List Mode) → HasModes modes stood
        → found.new ≡ found.old ++ aspects.moded (scope_of scope.now) place stood mode (value_of expr value.now)) }
{
    match (mode, value) {
        (Some(mode), Some(item)) => {
            if modes.has(mode) {
                found.push(refuse(Code::L30, place))?;
            }
            list_names(scope, mode, item, found)
        }
        _ => found.push(refuse(Code::L30, place)),
    }
}

fn moded_args(
    alloc: Global,
    home: &Home,
    scope: &Scope,
    args: &[Arg<Tree>],
) -> Result<Items<Found<Listed>>, Starved>
    ensures { IfOk result (λ xs. xs ≡ aspects.moded_args (home_of home.now) (scope_of scope.now) [] (args_of expr args.now)) }
{
    let mut modes = Modes::none();
    let mut found = Items::new(alloc);
    for arg in args {
        let mode = choice_mode(home, &arg.choice);
        list_moded(
            scope,
            scope.place(arg.span.from),
            modes,
            mode,
            &arg.value,
            &mut found,
        )?;
        modes = modes.after(mode);
    }
    Ok(found)
}

fn listed_args(
    alloc: Global,
    scope: &Scope,
    mode: GlobalMode,
    args: &[Arg<Tree>],
) -> Result<Items<Found<Listed>>, Starved>
    ensures { IfOk result (λ xs. xs ≡ aspects.listed_args (scope_of scope.now) mode (args_of expr args.now)) }
{
    let mut found = Items::new(alloc);
    list_args(scope, mode, args, &mut found)?;
    Ok(found)
}

fn in_parentheses(
    alloc: Global,
    home: &Home,
    scope: &Scope,
    args: &[Arg<Tree>],
) -> Result<Items<Found<Listed>>, Starved>
    ensures { IfOk result (λ xs. xs ≡ aspects.in_parentheses (home_of home.now) (scope_of scope.now) (args_of expr args.now)) }
{
    match args {
        [Arg { value: Some(_), .. }, ..] => moded_args(alloc, home, scope, args),
        [Arg { value: None, .. }, ..] | [] => listed_args(alloc, scope, GlobalMode::Input, args),
    }
}

/// The globals that an item lists, each where it stands. `Err` where memory was refused.
#[tactic(auto, using(syntax_view::proofs::Forms::expr_has))]
pub(crate) fn globals_in(
    alloc: Global,
    home: &Home,
    scope: &Scope,
    item: &Item<Tree>,
) -> Result<Items<Found<Listed>>, Starved>
    ensures { IfOk result (λ xs. xs ≡ aspects.globals_in (home_of home.now) (scope_of scope.now) (item_of expr item.now)) }
{
    if let ItemForm::Plain(plain) = item.form.get() {
        match plain.node.get() {
            ExprNode::Null => return Ok(Items::new(alloc)),
            ExprNode::Group(args) => return in_parentheses(alloc, home, scope, args.as_slice()),
            _ => {}
        }
    }
    let mut found = Items::new(alloc);
    found.push(listed(scope, GlobalMode::Input, item))?;
    Ok(found)
}
