//! The checks of a node.

ghost use Rattle.std.specs.Prelude.{◌≡◌, ℕ, map};
ghost use Rattle.std.specs.Option.{option_copied, option_to_list};
ghost use Rattle.typed_units.specs.View.{actual_of, demand_of, expr, routine, stmt, text_of, way_of};
ghost use Rattle.unit_nodes.specs.View.{node_of};
ghost use Rattle.check_sites.specs.Listed.{listed, sub_has_pre, way_checks};
ghost use Rattle.check_sites.specs.Sites.{actual_checks, demand_checks, each_checks, expression_checks, fit_check, has_pre, node_checks, site_if, statement_checks, variant_checks};

use crate::known::scalar_at;
use crate::operators::{binary_checks, overflow_check};
use crate::site::{Checks, check_if};
use ada_values::{Place, ShapeList};
use sqlite_items::Items;
use typed_units::{
    Action, Actual, Bounds, CheckKind, Demand, Expr, ExprNode, Program, SiteKey, Stmt, Sub, Way,
};
use unit_nodes::NodeRef;

/// The range check of a value that is fitted into bounds.
fn fit_check(bounds: Option<Bounds>, place: Place) -> Option<SiteKey>
    ensures { option_to_list result ≡ fit_check bounds place }
{
    check_if(bounds.is_some(), place, CheckKind::Range)
}

/// Whether the subprogram has a `Pre`.
fn sub_has_pre(sub: Option<&Sub>) -> bool
    ensures { result ≡ sub_has_pre (option_copied sub.entry) }
{
    match sub {
        Some(sub) => sub.pre.is_some(),
        None => false,
    }
}

/// Whether the subprogram of a number has a `Pre`.
#[tactic(auto, using(crate::proofs::Found::pre_found))]
fn has_pre(shapes: &ShapeList, subs: &Items<Sub>, callee: u32) -> bool
    ensures { result ≡ has_pre (map (routine shapes.now) subs.now) callee }
{
    sub_has_pre(subs.get(callee as usize))
}

/// The precondition's check of a call.
fn call_check(program: &Program, callee: u32, place: Place) -> Option<SiteKey>
    ensures { option_to_list result ≡ site_if (has_pre (map (routine program.now.shapes) program.now.subs) callee) place CheckKind.Pre }
{
    let exists = has_pre(&program.shapes, &program.subs, callee);
    check_if(exists, place, CheckKind::Pre)
}

/// The checks of an expression itself, without its parts.
fn expression_checks(program: &Program, e: &Expr) -> Checks
    ensures { listed result ≡ expression_checks (text_of program.now) (expr program.now.shapes e.now) }
{
    let shapes = &program.shapes;
    match e.node.get() {
        ExprNode::Length(place, _) | ExprNode::Succ(place, _) | ExprNode::Pred(place, _) => {
            Checks::one(check_if(true, *place, CheckKind::Range))
        }
        ExprNode::Unary(place, op, _) => {
            let s = scalar_at(shapes, e.subtype);
            Checks::one(overflow_check(*op, &s, None, *place))
        }
        ExprNode::Binary(place, op, _, right) => {
            let s = scalar_at(shapes, e.subtype);
            binary_checks(shapes, *op, &s, *place, right)
        }
        ExprNode::Convert(bounds, a) => Checks::one(fit_check(*bounds, a.place)),
        ExprNode::Call(place, callee, _) => Checks::one(call_check(program, *callee, *place)),
        ExprNode::Item(_, index) => {
            Checks::one(check_if(index.checked, index.value.place, CheckKind::Index))
        }
        _ => Checks::NONE,
    }
}

/// The checks of a statement itself, without its parts.
fn statement_checks(program: &Program, s: &Stmt) -> Checks
    ensures { listed result ≡ statement_checks (text_of program.now) (stmt program.now.shapes s.now) }
{
    let check = match s.action.get() {
        Action::Assign(_, value) | Action::Give(value) => {
            fit_check(value.bounds, value.value.place)
        }
        Action::Call(callee, _) => call_check(program, *callee, s.place),
        Action::Assert(e) => check_if(true, e.place, CheckKind::Assert),
        Action::Assume(e) => check_if(true, e.place, CheckKind::Assume),
        _ => None,
    };
    Checks::one(check)
}

/// The checks of what is passed in a call, in both directions.
fn actual_checks(shapes: &ShapeList, actual: &Actual<Expr>) -> Checks
    ensures { (k : ℕ) → listed result ≡ actual_checks (actual_of (expr shapes.now) k actual.now) }
{
    match actual {
        Actual::In(value) => Checks::one(fit_check(value.bounds, value.value.place)),
        Actual::Out(target, back) => Checks::one(fit_check(*back, target.place)),
        Actual::InOut(target, bounds, back) => Checks {
            first: fit_check(*bounds, target.place),
            second: fit_check(*back, target.place),
        },
    }
}

fn way_check(shapes: &ShapeList, way: Option<&Way>) -> Option<SiteKey>
    ensures { option_to_list result ≡ way_checks shapes.now (option_copied way.entry) }
{
    match way {
        Some(way) => check_if(true, way.value.place, CheckKind::Variant),
        None => None,
    }
}

/// The check of a loop variant, at its first expression.
#[tactic(auto, using(crate::proofs::Found::way_found))]
fn variant_check(shapes: &ShapeList, ways: &Items<Way>) -> Option<SiteKey>
    ensures { option_to_list result ≡ variant_checks (map (way_of shapes.now) ways.now) }
{
    way_check(shapes, ways.get(0))
}

/// The checks of a pragma of a loop's group.
fn demand_checks(shapes: &ShapeList, demand: &Demand) -> Checks
    ensures { listed result ≡ demand_checks (demand_of shapes.now demand.now) }
{
    match demand {
        Demand::Invariant(e) => Checks {
            first: check_if(true, e.place, CheckKind::InvFirst),
            second: check_if(true, e.place, CheckKind::InvKept),
        },
        Demand::Variant(ways) => Checks::one(variant_check(shapes, ways)),
    }
}

/// The range check of an association's value.
fn each_check(checks: &Items<Bounds>, place: Place) -> Option<SiteKey>
    ensures { option_to_list result ≡ each_checks checks.now place }
{
    check_if(!checks.is_empty(), place, CheckKind::Range)
}

/// The checks of a node.
pub(crate) fn node_checks(program: &Program, node: NodeRef) -> Checks
    ensures { listed result ≡ node_checks (text_of program.now) (node_of program.now.shapes node.entry) }
{
    let shapes = &program.shapes;
    match node {
        NodeRef::Subprogram(_) | NodeRef::Pre(_) => Checks::NONE,
        NodeRef::Post(e) => Checks::one(check_if(true, e.place, CheckKind::Post)),
        NodeRef::Statement(s) => statement_checks(program, s),
        NodeRef::Demand(demand) => demand_checks(shapes, demand),
        NodeRef::Passed(_, argument) => actual_checks(shapes, &argument.value),
        NodeRef::Index(index) => {
            Checks::one(check_if(index.checked, index.value.place, CheckKind::Index))
        }
        NodeRef::Association(association) => {
            Checks::one(each_check(&association.checks, association.value.place))
        }
        NodeRef::Expression(_, e) => expression_checks(program, e),
    }
}
