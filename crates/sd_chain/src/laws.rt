//! What each event does to all images that a crash may leave: laws, each the contract of a call that does nothing. They are
//! stated for a `may` that is fixed: a crate whose `may` moves with a rig cites the lemmas of `proofs/Images.antt`, of which
//! these laws are instances.

ghost use Rattle.std.specs.Prelude.{ℕ};
ghost use Rattle.sd_base.specs.declared.ids.TxnId.{TxnId};
ghost use Rattle.sd_page.specs.Page.{Page};
ghost use Rattle.sd_chain.specs.Fates.{UnknownHasNone, OpenIsOpen, ClosedHasEnd, CommittedHasCommit, EndedHasEnd, OthersKeepFate, CommittedStays, EndedStays, OwnMakesFate};
ghost use Rattle.sd_chain.specs.Laws.{SoundOpens, NarrowedIsSafe, NarrowedGives, NarrowedLeaves, LosersAreOpen, LosersHaveFateOpen, OpeningRecovers, OpeningIsSafe, OpeningGives, ChangeIsSafe, ChangeGives, UndoIsSafe, UndoGives, SealIsSafe, PlainGives, EndGives, CommitGives, SettlingIsSafe, SettlingGives, WriteIsSafe, WriteGives, ShorteningIsSafe, ShorteningGives, ShorteningKeepsRecords, RecoveredIsOne, MergedFit, MergedReplay, UndoingRecovers, UndoingFinds, LocksKeepApart, LeftStands, ForceLeaves, PutLeaves, TwinIsPut, LogIsForced};

/// What a crash may leave as the disk image of each page.
pub trait Crashes {
    ghost may: { ℕ → Page → Type 0 };
}

/// Sound devices keep an image from which a complex may be opened, and each log has its own instance's transactions alone.
pub fn sound_devices()
    ensures opens { SoundOpens }
{}

/// An image that is sound, and whose logs are in order, is safe to begin with.
pub fn opening()
    ensures safe { OpeningIsSafe }
    ensures gives { OpeningGives }
{}

/// A change, seen from the page in memory and the lock on its record (ARIES, section 3).
pub fn change<C: Crashes>()
    ensures safe { ChangeIsSafe C.may }
    ensures gives { ChangeGives C.may }
{}

/// The undo of a transaction's newest open change, by a CLR.
pub fn undo<C: Crashes>()
    ensures safe { UndoIsSafe C.may }
    ensures gives { UndoGives C.may }
{}

/// A record without a page.
pub fn seal<C: Crashes>()
    ensures safe { SealIsSafe C.may }
    ensures plain { PlainGives C.may }
    ensures ended { EndGives C.may }
    ensures committed { CommitGives C.may }
{}

/// A tail that is forced, or dropped.
pub fn settling<C: Crashes>()
    ensures safe { SettlingIsSafe C.may }
    ensures gives { SettlingGives C.may }
{}

/// A page write, once each of the page's records is forced.
pub fn page_write<C: Crashes>()
    ensures safe { WriteIsSafe C.may }
    ensures gives { WriteGives C.may }
{}

/// A later start place of a log, once what stands before it is on disk or closed.
pub fn start_place<C: Crashes>()
    ensures safe { ShorteningIsSafe C.may }
    ensures gives { ShorteningGives C.may }
    ensures records { ShorteningKeepsRecords C.may }
{}

/// What a crash leaves at any moment, told log by log and page by page.
pub fn crashed<C: Crashes>()
    ensures stands { LeftStands C.may }
    ensures force { ForceLeaves C.may }
    ensures put { PutLeaves C.may }
{}

/// What is safe whatever one may leave of each page is safe where less may be left, and recovery gives the same.
pub fn narrowing<C: Crashes, D: Crashes>()
    ensures safe { NarrowedIsSafe C.may D.may }
    ensures gives { NarrowedGives C.may D.may }
    ensures leaves { NarrowedLeaves C.may D.may }
{}

/// What a crash leaves, told of the devices' bytes.
pub fn devices<C: Crashes>()
    ensures put { TwinIsPut C.may }
    ensures forced { LogIsForced C.may }
{}

/// Which transaction holds which record, by page and slot.
pub trait Locks {
    ghost holds: { TxnId → ℕ → ℕ → Type 0 };
}

/// Exclusive locks keep what transactions have open apart, which a change asks for.
pub fn holding<L: Locks>()
    ensures { LocksKeepApart L.holds }
{}

/// Records of a page, merged by a sort, are its chain.
pub fn merging()
    ensures fit { MergedFit }
    ensures replay { MergedReplay }
{}

/// Recovery gives each record one value, which is found by undoing all that is open in the newest values.
pub fn recovery()
    ensures one { RecoveredIsOne }
    ensures undone { UndoingRecovers }
    ensures found { UndoingFinds }
{}

/// What is open in an image, listed log by log: undoing it gives what recovery gives.
pub fn losers()
    ensures open { LosersAreOpen }
    ensures fated { LosersHaveFateOpen }
    ensures recovers { OpeningRecovers }
{}

/// What a transaction's kept records tell of its end, and what further records change of that.
pub fn fates()
    ensures unknown { UnknownHasNone }
    ensures open { OpenIsOpen }
    ensures closed { ClosedHasEnd }
    ensures committed { CommittedHasCommit }
    ensures ended { EndedHasEnd }
    ensures kept { OthersKeepFate }
    ensures committed_stays { CommittedStays }
    ensures ended_stays { EndedStays }
    ensures own { OwnMakesFate }
{}
