//! What the goals of a tree say of runs.

ghost use Rattle.vc_tree.specs.Sound.{Proved};

/// Where all goals of a site are valid, no run fails first there: for the trees that are built so far, of subprograms
/// with scalar inputs and no contracts whose statements assert comparisons.
pub fn valid_goals_hold()
    ensures { Proved }
{}
