//! The order of sites.

ghost use Rattle.std.specs.Prelude.{◌≡◌, None, IfOk};
ghost use Rattle.check_sites.specs.Ordered.{in_order};
ghost use Rattle.check_sites.specs.Listed.{each_once, is_same};
ghost use Rattle.std.specs.List.Sorted.{IsSortedBy, IsStableBy};
ghost use Rattle.typed_units.specs.Sites.{site_before};
ghost use Rattle.check_sites.specs.declared.site.Site.{Site as OneSite};

use crate::Starved;
use crate::site::{Site, SiteList};
use sqlite_items::Items;
use std::alloc::Global;
use typed_units::{SiteKey, same_site};

/// The first of each run of sites with one key.
fn each_once(alloc: Global, sorted: &[Site]) -> Result<SiteList, Starved>
    ensures { IfOk result (λ l. l ≡ each_once None sorted.now) }
{
    let mut found = Items::new(alloc);
    let mut last = None;
    for site in sorted {
        if !is_same(last, site.key) {
            found.push(*site)?;
        }
        last = Some(site.key);
    }
    Ok(found)
}

fn is_same(last: Option<SiteKey>, key: SiteKey) -> bool
    ensures { result ≡ is_same last key }
{
    match last {
        Some(other) => same_site(other, key),
        None => false,
    }
}

/// Sites in the order of their keys; those of one key keep their order.
fn rising(found: Vec<Site>) -> Result<Vec<Site>, Starved>
    ensures rises { IfOk result (λ v. IsSortedBy (λ (a : OneSite) (b : OneSite). site_before a.key b.key) v.items) }
    ensures stable { IfOk result (λ v. IsStableBy (λ (a : OneSite) (b : OneSite). site_before a.key b.key) found.items v.items) }
{
    let mut sorted = found;
    sorted.sort_by_key(|site| site.key)?;
    Ok(sorted)
}

/// Sites in the order of their keys, each key once; the first of a key stands.
pub(crate) fn in_order(alloc: Global, found: Vec<Site>) -> Result<SiteList, Starved>
    ensures { IfOk result (λ l. l ≡ in_order found.items) }
{
    let sorted = rising(found)?;
    each_once(alloc, &sorted)
}
