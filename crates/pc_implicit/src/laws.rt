ghost use Rattle.pc_implicit.specs.ReplyKinds.{RepliesHaveKinds};
ghost use Rattle.pc_implicit.specs.Epochs.{OpenRecordsArePast, OtherRecordsArePast};
ghost use Rattle.pc_implicit.specs.Laws.{DecisionsStand, NothingFalls, LeftStagingsStayAway, BoundsStand, ViewsStayTrue, FinalViewsStay, DecisionsDoNotDiffer, CommitPointsDiffer, HoldersWereBegun, HeadsHaveHolders};

/// A law: a final record or mark keeps its status for good.
pub fn decisions_stand()
    ensures { DecisionsStand }
{}

/// A law: the epoch and the timestamp of a record or mark never fall.
pub fn nothing_falls()
    ensures { NothingFalls }
{}

/// A law: a staging that was left never returns.
pub fn left_stagings_stay_away()
    ensures { LeftStagingsStayAway }
{}

/// A law: a range's read bound never falls, and at one timestamp it gains no owner.
pub fn bounds_stand()
    ensures { BoundsStand }
{}

/// A law: what a range answered of a transaction is true of it for the rest of the run.
pub fn views_stay_true()
    ensures { ViewsStayTrue }
{}

/// A law: a range never answers two decisions of one transaction.
pub fn final_views_stay()
    ensures { FinalViewsStay }
{}

/// A law: no two decisions differ.
pub fn decisions_do_not_differ()
    ensures { DecisionsDoNotDiffer }
{}

/// A law: one entry makes at most one transaction committed.
pub fn commit_points_differ()
    ensures { CommitPointsDiffer }
{}

/// A law: after every history a range answers each request by a reply of its kind.
pub fn replies_have_kinds()
    ensures { RepliesHaveKinds }
{}

/// A law: a transaction whose intent stands in a request's way was begun by its session.
pub fn holders_were_begun()
    ensures { HoldersWereBegun }
{}

/// A law: a transaction whose intent stands in a request's way is of a session of the run.
pub fn heads_have_holders()
    ensures { HeadsHaveHolders }
{}

/// A law: a commit of the epoch that its session has reached, which leaves the record undecided, finds it past the commit's timestamp.
pub fn open_records_are_past()
    ensures { OpenRecordsArePast }
{}

/// A law: a stage of the epoch that its session has reached, which leaves the record undecided and not staging so, finds it past the stage's timestamp.
pub fn other_records_are_past()
    ensures { OtherRecordsArePast }
{}
