//! Laws of transactions, each the contract of a call that changes nothing: what a pop takes back, and how the sums of what
//! the ends take move.

ghost use Rattle.std.specs.Prelude.{◌≡◌, ◌+◌, ◌∷◌, ◌++◌, ℕ, [], IsSome, None, Some};
ghost use Rattle.std.specs.List.{IsDistinct};
ghost use Rattle.sd_base.specs.Ids.{same_txn};
ghost use Rattle.sd_base.specs.declared.ids.TxnId.{TxnId};
ghost use Rattle.sd_txn.specs.Marked.{AreMarks};
ghost use Rattle.sd_txn.specs.Owing.{bytes_owed, owed_of, records_owed, reserve_of, undo_len};
ghost use Rattle.sd_txn.specs.Transactions.{depth, ids, noted, popped, pushed, shut, started, top, txn_at, without, Replaces, Transaction, Transactions, OthersStay};
ghost use Rattle.sd_txn.specs.declared.state.OpenRec.{OpenRec};
ghost use Rattle.sd_txn.specs.declared.state.TxnState.{TxnState};

/// A record that is opened and taken back leaves the transaction as it was.
pub fn undone_push()
    ensures { (x : Transaction) (rec : OpenRec) → AreMarks x.marks (depth x) → popped (pushed rec x) ≡ x }
{}

/// What is owed once one transaction is another than before, by the parts of both.
pub fn owed_by_change()
    ensures reserve { (old new : Transactions) (t : TxnId) (x y : Transaction) → IsDistinct same_txn (ids old) → Replaces old new t x y
        → reserve_of new + bytes_owed x ≡ reserve_of old + bytes_owed y }
    ensures owed { (old new : Transactions) (t : TxnId) (x y : Transaction) → IsDistinct same_txn (ids old) → Replaces old new t x y
        → owed_of new + records_owed x ≡ owed_of old + records_owed y }
{}

/// A further open record.
pub fn owed_by_push()
    ensures bytes { (x : Transaction) (rec : OpenRec) → bytes_owed (pushed rec x) ≡ bytes_owed x + undo_len rec }
    ensures records { (x : Transaction) (rec : OpenRec) → records_owed (pushed rec x) ≡ records_owed x + 1 }
{}

/// An undone record.
pub fn owed_by_pop()
    ensures bytes { (x : Transaction) (rec : OpenRec) → top x ≡ Some rec → bytes_owed (popped x) + undo_len rec ≡ bytes_owed x }
    ensures records { (x : Transaction) (rec : OpenRec) → top x ≡ Some rec → records_owed (popped x) + 1 ≡ records_owed x }
{}

/// A row that is shut owes nothing.
pub fn owed_by_shut()
    ensures bytes { (x : Transaction) → bytes_owed (shut x) ≡ 0 }
    ensures records { (x : Transaction) → records_owed (shut x) ≡ 0 }
    ensures reserve { (old new : Transactions) (t : TxnId) (x : Transaction) → IsDistinct same_txn (ids old) → Replaces old new t x (shut x)
        → reserve_of new + bytes_owed x ≡ reserve_of old }
    ensures owed { (old new : Transactions) (t : TxnId) (x : Transaction) → IsDistinct same_txn (ids old) → Replaces old new t x (shut x)
        → owed_of new + records_owed x ≡ owed_of old }
{}

/// The first record of a transaction, and each later one.
pub fn owed_by_note()
    ensures first_bytes { (x : Transaction) (lsn : ℕ) → x.span ≡ None → bytes_owed (noted lsn x) ≡ bytes_owed x + 31 }
    ensures first_records { (x : Transaction) (lsn : ℕ) → x.span ≡ None → records_owed (noted lsn x) ≡ records_owed x + 1 }
    ensures later_bytes { (x : Transaction) (lsn : ℕ) → IsSome x.span → bytes_owed (noted lsn x) ≡ bytes_owed x }
    ensures later_records { (x : Transaction) (lsn : ℕ) → IsSome x.span → records_owed (noted lsn x) ≡ records_owed x }
{}

/// A transaction that begins, or that a restart found.
pub fn owed_by_begin()
    ensures reserve { (old new : Transactions) (t : TxnId) (state : TxnState) → IsDistinct same_txn (ids new) → txn_at old t ≡ None
        → txn_at new t ≡ Some (started state) → OthersStay old new t → ids new ≡ ids old ++ t ∷ [] → reserve_of new ≡ reserve_of old }
    ensures owed { (old new : Transactions) (t : TxnId) (state : TxnState) → IsDistinct same_txn (ids new) → txn_at old t ≡ None
        → txn_at new t ≡ Some (started state) → OthersStay old new t → ids new ≡ ids old ++ t ∷ [] → owed_of new ≡ owed_of old }
{}

/// A transaction that ends.
pub fn owed_by_end()
    ensures reserve { (old : Transactions) (t : TxnId) (x : Transaction) → txn_at old t ≡ Some x → reserve_of (without old t) + bytes_owed x ≡ reserve_of old }
    ensures owed { (old : Transactions) (t : TxnId) (x : Transaction) → txn_at old t ≡ Some x → owed_of (without old t) + records_owed x ≡ owed_of old }
{}
