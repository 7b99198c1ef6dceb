//! Calls that are to fail, for the keeper and the sink in memory.
ghost use Rattle.std.specs.Prelude.{◌≡◌, ◌↔◌, IsTrue};
ghost use Rattle.keeper_io.specs.Doubles.{one_more, NextFails};

use sqlite_items::Items;

/// The numbers of calls, counted from 1.
pub type CallList = Items<u64>;

/// A count of the calls made, and the numbers of those that are to fail.
#[derive(Debug, Drop)]
pub struct FailingCalls {
    pub made: u64,
    pub failing: CallList,
}

impl FailingCalls {
    /// Counts a call, up to 2^64 - 1, and tells whether it is to fail.
    pub fn next_fails(&mut self) -> bool
        ensures fails { IsTrue result ↔ NextFails self.old }
        ensures made { self.new ≡ record self.old { made = one_more self.old.made } }
    {
        self.made = self.made.saturating_add(1);
        self.failing.as_slice().contains(&self.made)
    }
}
