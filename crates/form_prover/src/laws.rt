//! What the rows say of runs.

ghost use Rattle.form_prover.specs.Sound.{AllProvedHold, FailingSitesHaveRows, ProvedRowsHold};

/// No run of the procedure fails first at the site of a row that is reported proved.
pub fn proved_rows_hold()
    ensures { ProvedRowsHold }
{}

/// A site at which some run of the procedure fails first has a row, so no report leaves one out; and where all rows are
/// proved, no run fails at all.
pub fn rows_are_complete()
    ensures failing { FailingSitesHaveRows }
    ensures all { AllProvedHold }
{}
