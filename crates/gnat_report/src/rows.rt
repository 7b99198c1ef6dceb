//! The rows of a report.

use ada_values::NameText;
use sqlite_items::Items;
use typed_units::SiteKey;

/// What is said of a site.
#[derive(Clone, Copy, Debug, PartialEq, Eq)]
pub enum RowStatus {
    /// All goals of the site are proved.
    Proved,
    /// The site is that of a `pragma Assume`, which is assumed and not proved.
    Assumed,
    /// Some goal of the site isn't proved.
    Unproved,
}

/// A row of a report: a site, the name of the file that its place numbers, and what is said of it.
#[derive(Debug, Drop)]
pub struct Row {
    pub name: NameText,
    pub key: SiteKey,
    pub status: RowStatus,
}

/// The rows of a report, in order.
pub type RowList = Items<Row>;
