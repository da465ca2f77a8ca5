//! What the invariant says at any moment: laws, each the contract of a call that does nothing.

ghost use Rattle.std.specs.Prelude.{ℕ, List};
ghost use Rattle.sd_state.specs.Laws.{EachCopyIsNewest, ForceLeftStands, LeftStands, OneMayUpdate};
ghost use Rattle.sd_state.specs.Working.{ReadIsGood};

/// What a crash may leave of each device, at one moment.
pub trait Moment {
    ghost leaves: { ℕ → List ℕ → Type 0 };
}

/// Whatever a crash leaves, between two calls or while a log is forced, stands for the serial table's state.
pub fn images<M: Moment>()
    ensures left { LeftStands M.leaves }
    ensures force { ForceLeftStands M.leaves }
{}

/// At most one instance may update a page, and every copy under a page lock is its newest version.
pub fn page_locks<M: Moment>()
    ensures one { OneMayUpdate M.leaves }
    ensures newest { EachCopyIsNewest M.leaves }
{}

/// A transaction that runs and has the lock finds what it sees at a record: the invariant holds with the read noted.
pub fn reads<M: Moment>()
    ensures { ReadIsGood M.leaves }
{}
