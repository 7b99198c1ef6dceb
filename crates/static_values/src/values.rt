//! The values of static expressions.

ghost use Rattle.std.specs.Prelude.{◌≡◌, IfOk};
ghost use Rattle.statement_typing.specs.Values.{settled, static_value, whole};
ghost use Rattle.static_values.specs.Shares.{share_onto, shares_in};
ghost use Rattle.typing_rules.specs.declared.prefix.Found.TheVariants.{Is};
ghost use Rattle.typing_rules.specs.Fits.{with_found};

use crate::Starved;
use crate::shares::with_share;
use crate::wholes::found_whole;
use ada_values::{Place, Value};
use front_codes::{Code, Refusal};
use name_values::added;
use sqlite_items::Items;
use statement_typing::Share;
use std::alloc::Global;
use typed_units::{Association, Bounds, Composite, Expr, ExprNode, Fitted};
use typing_rules::Found;

/// A copy of a static value.
fn copied(alloc: Global, value: &Value) -> Result<Found<Value>, Starved>
    ensures { IfOk result (λ found. found ≡ Is value.now) }
{
    Ok(Found::Is(value.copy(alloc)?))
}

/// The value of a static expression, or of an aggregate of static values; L27 at what is neither. `Err` where memory was
/// refused, as it is for an aggregate of 2^32 components or more.
#[tactic(auto, using(crate::proofs::Folds::value_made))]
#[cycle(values)]
pub fn static_value(alloc: Global, x: &Expr) -> Result<Found<Value>, Starved>
    ensures { IfOk result (λ found. found ≡ static_value x.now) }
{
    match x.node.get() {
        ExprNode::Static(value) => copied(alloc, value),
        ExprNode::Aggregate(composite, bounds, associations) => {
            aggregate(alloc, *composite, *bounds, associations)
        }
        ExprNode::Read(_, _)
        | ExprNode::Old(_, _)
        | ExprNode::LoopEntry(_, _, _)
        | ExprNode::Result(_)
        | ExprNode::First(_)
        | ExprNode::Last(_)
        | ExprNode::Length(_, _)
        | ExprNode::Succ(_, _)
        | ExprNode::Pred(_, _)
        | ExprNode::Same(_)
        | ExprNode::Not(_)
        | ExprNode::Unary(_, _, _)
        | ExprNode::Binary(_, _, _, _)
        | ExprNode::Compare(_, _, _)
        | ExprNode::Connect(_, _, _)
        | ExprNode::Member(_, _, _, _)
        | ExprNode::Convert(_, _)
        | ExprNode::Call(_, _, _)
        | ExprNode::Item(_, _)
        | ExprNode::Component(_, _)
        | ExprNode::If(_, _)
        | ExprNode::Quantified(_, _, _, _, _) => Ok(Found::Refused(Refusal {
            code: Code::L27,
            place: x.place,
        })),
    }
}

/// The value of an aggregate.
#[cycle(values)]
fn aggregate(
    alloc: Global,
    composite: Composite,
    bounds: Bounds,
    associations: &Items<Association<Expr>>,
) -> Result<Found<Value>, Starved>
    ensures { IfOk result (λ found. found ≡ with_found (whole composite bounds) (shares_in associations.now)) }
{
    match shares(alloc, associations) {
        Ok(shares) => found_whole(alloc, composite, bounds, shares),
        Err(error) => Err(error),
    }
}

/// What the associations of an aggregate give.
#[cycle(values)]
fn shares(
    alloc: Global,
    associations: &Items<Association<Expr>>,
) -> Result<Found<Items<Share>>, Starved>
    ensures { IfOk result (λ shares. shares ≡ shares_in associations.now) }
{
    let mut done = Found::Is(Items::new(alloc));
    for association in associations.as_slice() {
        done = share_beside(alloc, association, done)?;
    }
    Ok(done)
}

/// What an association gives, beside those before it.
#[cycle(values)]
fn share_beside(
    alloc: Global,
    association: &Association<Expr>,
    done: Found<Items<Share>>,
) -> Result<Found<Items<Share>>, Starved>
    ensures { IfOk result (λ shares. shares ≡ share_onto done association.now) }
{
    match static_value(alloc, &association.value) {
        Ok(found) => with_share(alloc, association, found, done),
        Err(error) => {
            drop(done);
            Err(error)
        }
    }
}

/// The value of a constant, or the initial value of a variable, of a package, with L27 at `place` where it is to be checked against
/// bounds. `Err` where memory was refused, as it is for an aggregate of 2^32 components or more.
pub fn settled(alloc: Global, place: Place, fitted: &Fitted<Expr>) -> Result<Found<Value>, Starved>
    ensures { IfOk result (λ found. found ≡ settled place fitted.now) }
{
    match fitted.bounds {
        Some(_) => Ok(Found::Refused(Refusal {
            code: Code::L27,
            place,
        })),
        None => static_value(alloc, &fitted.value),
    }
}
