//! The sites of a program.

ghost use Rattle.std.specs.Prelude.{◌≡◌, ◌++◌, ◌<◌, ◌^◌, [], length, map, IfOk, OnOk};
ghost use Rattle.typed_units.specs.View.{routine, text_of};
ghost use Rattle.unit_nodes.specs.Nodes.{routine_onto};
ghost use Rattle.unit_nodes.specs.View.{node_of};
ghost use Rattle.check_sites.specs.Ordered.{sites_of};
ghost use Rattle.check_sites.specs.Sites.{checks_from, checks_of};

use crate::Starved;
use crate::nodes::node_checks;
use crate::order::in_order;
use crate::site::{Site, SiteList, push_checks};
use std::alloc::Global;
use typed_units::{Program, Sub};
use unit_nodes::{NodeRef, subprogram_nodes};

/// Adds the checks of nodes of the subprogram `owner`.
fn push_nodes(
    found: &mut Vec<Site>,
    program: &Program,
    owner: u32,
    nodes: &[NodeRef],
) -> Result<(), Starved>
    ensures { OnOk result (found.new.items ≡ found.old.items ++ checks_of (text_of program.now) owner (map (node_of program.now.shapes) nodes.now)) }
{
    for node in nodes {
        push_checks(found, owner, node_checks(program, *node))?;
    }
    Ok(())
}

/// Adds the checks of a subprogram.
fn push_subprogram(
    alloc: Global,
    found: &mut Vec<Site>,
    program: &Program,
    owner: u32,
    sub: &Sub,
) -> Result<(), Starved>
    ensures { OnOk result (found.new.items ≡ found.old.items ++ checks_of (text_of program.now) owner (routine_onto [] (routine program.now.shapes sub.now))) }
{
    let nodes = subprogram_nodes(alloc, &program.shapes, sub)?;
    push_nodes(found, program, owner, nodes.as_slice())
}

/// The checks of a program in the order of its text.
fn checks(alloc: Global, program: &Program) -> Result<Vec<Site>, Starved>
    requires { length program.now.subs < 2 ^ 32 }
    ensures { IfOk result (λ found. found.items ≡ checks_from (text_of program.now) 0 (map (routine program.now.shapes) program.now.subs)) }
{
    let mut found = Vec::new(alloc);
    let mut owner = 0u32;
    for sub in program.subs.as_slice() {
        push_subprogram(alloc, &mut found, program, owner, sub)?;
        owner += 1;
    }
    Ok(found)
}

/// The sites of a program, in the order of file, line, column and kind, no key twice. Where two checks share a key, the site
/// has the owner of the first in the text; in an accepted program these are of one subprogram. The time grows as n log n with
/// the number n of nodes. Want of memory is the only error.
pub fn sites(alloc: Global, program: &Program) -> Result<SiteList, Starved>
    requires { length program.now.subs < 2 ^ 32 }
    ensures { IfOk result (λ found. found ≡ sites_of (text_of program.now)) }
{
    let found = checks(alloc, program)?;
    in_order(alloc, found)
}
