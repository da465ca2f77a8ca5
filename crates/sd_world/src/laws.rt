//! What holds of each event in the world, and of runs: laws, each the contract of a call that does nothing.

ghost use Rattle.sd_rig.specs.Devices.{DeviceImages};
ghost use Rattle.sd_model.specs.State.{State};
ghost use Rattle.sd_world.specs.Serving.{telling};
ghost use Rattle.sd_world.specs.Laws.{CauseIsSaid, AnswerIsClear, RefusalLeavesPages, RefusalLeavesState, RefusedByPages, MovesKeepForm, RunKeepsForm, FallenHasNone, OthersHoldOn, LossStaysKnown, SumsGrow, OneLogGrows, LogsGrowLittle, LsnsGrowLittle, TriesTakeNoLsn, RunGrows, FullOnlyByPage, FullOnlyByLog, EndsOnlyByLsns, LongOnlyBySlot, ShownIsBounded, LeadsJoin, LeadsGrow, LeadsWithTries, LeadsOnGrow, TryLeadsOn, LeadsRuns, LeadsExactly, SparedPasses, PassesSpared};

use sd_rig::Rig;

/// Which states an image of the devices stands for.
pub trait Standing {
    ghost stands: { DeviceImages → State → Type 0 };
}

/// A refusal is for what it names, and leaves what it leaves; another reply comes only where no cause applies.
pub fn refusals()
    ensures said { CauseIsSaid }
    ensures clear { AnswerIsClear }
    ensures pages { RefusalLeavesPages }
    ensures state { RefusalLeavesState }
    ensures by_pages { RefusedByPages }
{}

/// Pages that are well formed stay so.
pub fn forms()
    ensures moves { MovesKeepForm }
    ensures run { RunKeepsForm }
{}

/// An instance fell: no page names it, and the others hold what they held.
pub fn falls()
    ensures none { FallenHasNone }
    ensures others { OthersHoldOn }
{}

/// A page is lost only while an instance is down or is recovered; what is asked of the places before is that code can name them.
pub fn losses()
    ensures { LossStaysKnown }
{}

/// Sums don't fall, LSNs go on by none where replies only wait, and a page, a log or the LSNs come to an end, or a slot is too small,
/// only where the sums say so; nor is an LSN above them shown.
pub fn sums()
    ensures grow { SumsGrow }
    ensures one { OneLogGrows }
    ensures little { LogsGrowLittle }
    ensures numbers { LsnsGrowLittle }
    ensures waits { TriesTakeNoLsn }
    ensures run { RunGrows }
    ensures page { FullOnlyByPage }
    ensures log { FullOnlyByLog }
    ensures lsns { EndsOnlyByLsns }
    ensures slot { LongOnlyBySlot }
    ensures shown { ShownIsBounded }
{}

/// Runs are put together, also with tries behind entries, and each without tries is a run of the serial table with exact waits.
pub fn runs()
    ensures join { LeadsJoin }
    ensures grow { LeadsGrow }
    ensures with_tries { LeadsWithTries }
    ensures grow_on { LeadsOnGrow }
    ensures try_on { TryLeadsOn }
    ensures states { LeadsRuns }
    ensures exact { LeadsExactly }
{}

/// A call that spares all, before another or behind it, adds nothing to what the other leaves.
pub fn calls<G: Rig, S: Standing>()
    ensures spared { SparedPasses (telling G.seen G.leaves G.moment G.since G.faults) S.stands }
    ensures sparing { PassesSpared (telling G.seen G.leaves G.moment G.since G.faults) S.stands }
{}
