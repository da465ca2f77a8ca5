//! Laws of the serial table, for proofs above: each call does nothing, and its clauses hold of all states.

ghost use Rattle.sd_model.specs.Few.{FewSteps};
ghost use Rattle.sd_model.specs.StepLaws.{JoinedSteps, BeganSteps, InsertedSteps, FullSteps, TooLongSteps, NoTxnSteps, CommittedSteps, ListedSteps};
ghost use Rattle.sd_model.specs.ViewLaws.{PartHere, PartElsewhere, ViewAfterWrite, NowAfterWrite, NowAfterCommit, ViewAfterBegin, NoneCounted};
ghost use Rattle.sd_model.specs.RunLaws.{RunGrows, RunSplits, RunsJoin};
ghost use Rattle.sd_model.specs.SerialLaws.{RunIsSerial, RunIsKept, FreshIsOpening, StepKeeps, RunKeeps, PutsCommute, LateIsEarly, MayCommitApart, CommitBeforeDoubt, BeginCounts, CountIsTrue, RollbackGoesOn};
ghost use Rattle.sd_model.specs.WaitLaws.{BlockedIsLocked, DeadlockIsLocked, BlockedOrDeadlock};
ghost use Rattle.sd_model.specs.SceneLaws.{OnlyRunningWait, CallerWaits, OthersWaitOn, SceneRunKeeps, StepPlays, SceneRunGrows, ScenesGiveRun, RunHasScenes};
ghost use Rattle.sd_model.specs.Kept.{Kept};
ghost use Rattle.sd_model.specs.Lives.{LivesAreSound};
ghost use Rattle.sd_model.specs.Listed.{Listed};
ghost use Rattle.sd_model.specs.Marks.{Marked};
ghost use Rattle.sd_model.specs.Recoverers.{Recoverers, RecovererIsActive};
ghost use Rattle.sd_model.specs.StayLaws.{SameStart, MoreDone, StepMakes, RunMakes, CommitLasts, NoneCommitsTwice, IdIsNew};
ghost use Rattle.sd_model.specs.Opened.{FreshIsOpened, OpenedIs};
ghost use Rattle.sd_model.specs.Reopening.{ReopenedReopens, ClosedMayReopen, ReopenedStands};
ghost use Rattle.sd_model.specs.Finishing.{FinishedCommitted, FinishedEmpty};

/// Joins and lists of instances are steps.
pub fn instance_steps()
    ensures joined { JoinedSteps }
    ensures listed { ListedSteps }
{}

/// Begins, inserts and commits are steps, and so are their refusals.
pub fn transaction_steps()
    ensures began { BeganSteps }
    ensures inserted { InsertedSteps }
    ensures full { FullSteps }
    ensures too_long { TooLongSteps }
    ensures no_txn { NoTxnSteps }
    ensures committed { CommittedSteps }
{}

/// What each transaction sees after each change.
pub fn views()
    ensures part_here { PartHere }
    ensures part_elsewhere { PartElsewhere }
    ensures view_after_write { ViewAfterWrite }
    ensures now_after_write { NowAfterWrite }
    ensures now_after_commit { NowAfterCommit }
    ensures view_after_begin { ViewAfterBegin }
    ensures none_counted { NoneCounted }
{}

/// Runs grow by a step, split, and follow one another.
pub fn runs()
    ensures grows { RunGrows }
    ensures splits { RunSplits }
    ensures join { RunsJoin }
{}

/// The committed transactions of a run from an opening are in a serial order: each read what it reads where they
/// run one after another, and so does each that may still commit.
pub fn serial_order()
    ensures serial { RunIsSerial }
    ensures kept { RunIsKept }
    ensures fresh { FreshIsOpening }
    ensures each_step { StepKeeps Kept }
    ensures each_run { RunKeeps Kept }
{}

/// Transactions that share no record may be applied in either order.
pub fn commuting()
    ensures puts { PutsCommute }
    ensures late { LateIsEarly }
    ensures apart { MayCommitApart }
    ensures doubt { CommitBeforeDoubt }
{}

/// Transactions stand where their instances let them, each that is there is listed once, marks are at most the live puts,
/// and whoever recovers an instance is active.
pub fn whereabouts()
    ensures placed { StepKeeps LivesAreSound }
    ensures placed_all { RunKeeps LivesAreSound }
    ensures listed { StepKeeps Listed }
    ensures listed_all { RunKeeps Listed }
    ensures marked { StepKeeps Marked }
    ensures marked_all { RunKeeps Marked }
    ensures recoverers { StepKeeps Recoverers }
    ensures recoverers_all { RunKeeps Recoverers }
    ensures active { RecovererIsActive }
    ensures new_id { IdIsNew }
    ensures counts { BeginCounts }
    ensures true_count { CountIsTrue }
    ensures goes_on { RollbackGoesOn }
{}

/// The opening table stays, committed transactions stay in their order, and nobody commits twice.
pub fn lasting()
    ensures start { StepMakes SameStart }
    ensures start_all { RunMakes SameStart }
    ensures done { StepMakes MoreDone }
    ensures done_all { RunMakes MoreDone }
    ensures acknowledged { CommitLasts }
    ensures once { NoneCommitsTwice }
{}

/// A complex that is opened from devices begins as the laws of whereabouts want it, and so does a fresh one.
pub fn openings()
    ensures fresh { FreshIsOpened }
    ensures placed { OpenedIs LivesAreSound }
    ensures listed { OpenedIs Listed }
    ensures marked { OpenedIs Marked }
    ensures recoverers { OpenedIs Recoverers }
{}

/// A closed complex opens again from what it finds: those in doubt whose commit is kept are committed, the losers hold
/// what they hold, and its table is the one that stood.
pub fn reopenings()
    ensures reopened { ReopenedReopens }
    ensures may { ClosedMayReopen }
    ensures stands { ReopenedStands }
{}

/// The end of a recovery leaves the table that stands once those in doubt are decided, whether it finds its one in doubt
/// committed or not.
pub fn finishings()
    ensures committed { FinishedCommitted }
    ensures empty { FinishedEmpty }
{}

/// An asked claim that is answered as blocked or as a deadlock conflicts with another's, and isn't both.
pub fn waits()
    ensures blocked { BlockedIsLocked }
    ensures deadlock { DeadlockIsLocked }
    ensures either { BlockedOrDeadlock }
{}

/// After an event only those that run wait: the caller where it is blocked, the others as before. A run of states is one of
/// scenes, and a run of scenes one of states.
pub fn scenes()
    ensures running { OnlyRunningWait }
    ensures caller { CallerWaits }
    ensures others { OthersWaitOn }
    ensures running_all { SceneRunKeeps }
    ensures plays { StepPlays }
    ensures grows { SceneRunGrows }
    ensures states { ScenesGiveRun }
    ensures exist { RunHasScenes }
{}

/// An instance that is up or restarting has at most 64 unresolved transactions: each step keeps that.
pub fn few()
    ensures { FewSteps }
{}
