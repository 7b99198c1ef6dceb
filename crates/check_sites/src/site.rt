//! Sites, and the checks of one node.

ghost use Rattle.std.specs.Prelude.{◌≡◌, ◌++◌, [], ◌∷◌, Bool, map, cond, OnOk};
ghost use Rattle.std.specs.Option.{option_to_list};
ghost use Rattle.check_sites.specs.Listed.{listed};
ghost use Rattle.check_sites.specs.Sites.{site_if};

use crate::Starved;
use ada_values::Place;
use sqlite_items::Items;
use typed_units::{CheckKind, SiteKey};

/// A site, with the number of the subprogram in whose text it stands. A check of a contract belongs to the subprogram that
/// has the contract.
#[derive(Clone, Copy, Debug, PartialEq, Eq)]
pub struct Site {
    pub key: SiteKey,
    pub owner: u32,
}

/// Sites in a list.
pub type SiteList = Items<Site>;

/// The checks of one node, which has at most two.
#[derive(Clone, Copy)]
pub(crate) struct Checks {
    pub(crate) first: Option<SiteKey>,
    pub(crate) second: Option<SiteKey>,
}

impl Checks {
    pub(crate) const NONE: Checks = Checks {
        first: None,
        second: None,
    };

    /// One check at most.
    pub(crate) fn one(check: Option<SiteKey>) -> Checks
        ensures { listed result ≡ option_to_list check }
    {
        Checks {
            first: check,
            second: None,
        }
    }
}

/// A check where it exists.
pub(crate) fn check_if(exists: bool, place: Place, kind: CheckKind) -> Option<SiteKey>
    ensures { option_to_list result ≡ site_if exists place kind }
{
    if exists {
        Some(SiteKey { place, kind })
    } else {
        None
    }
}

/// Adds the checks of a node of a subprogram.
pub(crate) fn push_checks(found: &mut Vec<Site>, owner: u32, checks: Checks) -> Result<(), Starved>
    ensures { OnOk result (found.new.items ≡ found.old.items ++ map (λ c. record { key = c; owner = owner }) (listed checks)) }
{
    if let Some(key) = checks.first {
        found.push(Site { key, owner })?;
    }
    if let Some(key) = checks.second {
        found.push(Site { key, owner })?;
    }
    Ok(())
}
