//! What each event does to coherence: laws, each the contract of a call that does nothing. They are stated for what a crash may
//! leave of each page at moments that are fixed: a crate whose moments move with a rig cites the lemmas of the same statements,
//! which `proofs` lends for any.

ghost use Rattle.std.specs.Prelude.{ℕ};
ghost use Rattle.sd_page.specs.Page.{Page};
ghost use Rattle.sd_chain.specs.Newest.{OneMayUpdate, EachCopyIsNewest, MovingIsNewest, QuietTailsAgree, ActiveTailsCount, InactiveHasNone, UpIsSettled, NewestIsHigh, CommittedIsThere, OpenIsThere};
ghost use Rattle.sd_chain.specs.Moves.{RowKeeps, RowKeepsRec, LockKeeps, RaiseKeeps, ShareKeeps, YieldKeeps, TakeKeeps, DropKeeps};
ghost use Rattle.sd_chain.specs.AppendedRecords.{OthersHaveNone, ChangeMayCome, UndoMayCome, ChangeKeeps, SealKeeps, RestKeeps};
ghost use Rattle.sd_chain.specs.Forces.{SettleKeeps, FailKeeps, SettledFailKeeps};
ghost use Rattle.sd_chain.specs.Falls.{FallKeeps, SettledFallKeeps, BeginKeeps};
ghost use Rattle.sd_chain.specs.Puts.{ForcedHasNone, LostHasNone, PutIsSafe, TryKeeps, WriteKeeps, SyncKeeps, SameLsnIsSame, UnputKeeps};
ghost use Rattle.sd_chain.specs.Statuses.{OpeningIsCoherent, StatusKeeps};
ghost use Rattle.sd_chain.specs.Calls.{UndoForKeeps, UndoForFailKeeps, UndoForFallKeeps, OwnFallKeeps};
ghost use Rattle.sd_chain.specs.Named.{MayBeNamed, SettleNamed, SealNamed, ChangeNamed, UndoNamed};
ghost use Rattle.sd_chain.specs.CrashImages.{LeftStands, ForceLeftStands, PutLeftStands, PutGives};
ghost use Rattle.sd_chain.specs.Checkpoints.{CoverBegins, CoverGrows, CoverSettles, CoverPuts, CoverStays, CloseBegins, CloseGrows, CloseSettles, CloseStays, MayShorten, ShortenKeeps};

/// What a crash may leave as the disk image of each page, at one moment.
pub trait Disks {
    ghost may: { ℕ → Page → Type 0 };
}

/// At most one instance may update a page, and every copy under a page lock is its newest version.
pub fn page_locks<D: Disks>()
    ensures one { OneMayUpdate D.may }
    ensures newest { EachCopyIsNewest D.may }
    ensures moving { MovingIsNewest D.may }
{}

/// What a page's newest version hangs on, and what it holds.
pub fn newest_versions<D: Disks>()
    ensures quiet { QuietTailsAgree D.may }
    ensures active { ActiveTailsCount D.may }
    ensures inactive { InactiveHasNone D.may }
    ensures up { UpIsSettled D.may }
    ensures high { NewestIsHigh D.may }
    ensures committed { CommittedIsThere D.may }
    ensures open { OpenIsThere D.may }
{}

/// A row of the directory's table.
pub fn rows<D: Disks>()
    ensures any { RowKeeps D.may }
    ensures rec_lsn { RowKeepsRec D.may }
    ensures lock { LockKeeps D.may }
    ensures raise { RaiseKeeps D.may }
    ensures share { ShareKeeps D.may }
    ensures yield_page { YieldKeeps D.may }
    ensures take { TakeKeeps D.may }
    ensures drop_copy { DropKeeps D.may }
{}

/// A change or an undo that is seen from the image in the pool: it may come.
pub fn may_come<D: Disks>()
    ensures lone { OthersHaveNone D.may }
    ensures change { ChangeMayCome D.may }
    ensures undo { UndoMayCome D.may }
{}

/// A record comes to a log, or nothing happens.
pub fn records<D: Disks, E: Disks>()
    ensures change { ChangeKeeps D.may E.may }
    ensures seal { SealKeeps D.may E.may }
    ensures rest { RestKeeps D.may E.may }
{}

/// A log is settled, or a force fails.
pub fn forces<D: Disks, E: Disks>()
    ensures settle { SettleKeeps D.may E.may }
    ensures fail { FailKeeps D.may }
    ensures settled { SettledFailKeeps D.may }
{}

/// An instance falls, or its recovery begins.
pub fn falls<D: Disks, E: Disks>()
    ensures fall { FallKeeps D.may }
    ensures settled { SettledFallKeeps D.may E.may }
    ensures begin { BeginKeeps D.may }
{}

/// A page is put, or device 0 is synced.
pub fn puts<D: Disks, E: Disks>()
    ensures forced { ForcedHasNone D.may }
    ensures lost { LostHasNone D.may }
    ensures safe { PutIsSafe D.may E.may }
    ensures tried { TryKeeps D.may E.may }
    ensures written { WriteKeeps D.may E.may }
    ensures synced { SyncKeeps D.may E.may }
    ensures same { SameLsnIsSame D.may }
    ensures unput { UnputKeeps D.may }
{}

/// A complex is opened.
pub fn opening()
    ensures { OpeningIsCoherent }
{}

/// Instances start, stop, and end a recovery.
pub fn statuses<D: Disks>()
    ensures { StatusKeeps D.may }
{}

/// An undo by a recovery, and a fall by a force that failed.
pub fn calls<D: Disks, E: Disks>()
    ensures undo { UndoForKeeps D.may E.may }
    ensures undo_fails { UndoForFailKeeps D.may E.may }
    ensures undo_falls { UndoForFallKeeps D.may E.may }
    ensures own_fall { OwnFallKeeps D.may }
{}

/// What events ask for of safety, with the newest versions by name.
pub fn named<D: Disks, E: Disks>()
    ensures rest { MayBeNamed D.may E.may }
    ensures settle { SettleNamed D.may E.may }
    ensures seal { SealNamed D.may E.may }
    ensures change { ChangeNamed D.may E.may }
    ensures undo { UndoNamed D.may E.may }
{}

/// What a crash leaves between calls and meanwhile.
pub fn crashes<D: Disks>()
    ensures left { LeftStands D.may }
    ensures force { ForceLeftStands D.may }
    ensures put { PutLeftStands D.may }
    ensures gives { PutGives D.may }
{}

/// What a checkpoint has of pages from its begin on.
pub fn covered<D: Disks, E: Disks>()
    ensures begins { CoverBegins D.may }
    ensures grows { CoverGrows D.may E.may }
    ensures settles { CoverSettles D.may E.may }
    ensures puts { CoverPuts D.may E.may }
    ensures stays { CoverStays D.may E.may }
{}

/// What it has of transactions.
pub fn closed()
    ensures begins { CloseBegins }
    ensures grows { CloseGrows }
    ensures settles { CloseSettles }
    ensures stays { CloseStays }
{}

/// The later start place that this allows.
pub fn later_start<D: Disks>()
    ensures allowed { MayShorten D.may }
    ensures keeps { ShortenKeeps D.may }
{}
