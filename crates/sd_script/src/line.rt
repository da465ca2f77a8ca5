//! A line of a script, and the forms that it may have.

use sd_base::{Bytes, InstNo, Mode, PageNo, Pick, Rid, Word};

/// What a line says. The ordinal of a line of a transaction is that of its begin line among the begin lines, counted
/// from 0.
#[derive(Drop)]
pub enum Form {
    /// `complex N P F`: so many instances, pages, and frames for each instance.
    Complex {
        insts: InstNo,
        pages: u16,
        frames: u16,
    },
    /// `I begin T`: the transaction begins on the instance.
    Begin {
        inst: InstNo,
        name: Word,
    },
    /// `read T R`: the transaction reads the record.
    Read {
        name: Word,
        ordinal: u32,
        rid: Rid,
    },
    /// `write T R V`: the transaction puts the value in place of the record's.
    Write {
        name: Word,
        ordinal: u32,
        rid: Rid,
        value: Bytes,
    },
    /// `add T R M`: the transaction adds the number to the record's.
    Add {
        name: Word,
        ordinal: u32,
        rid: Rid,
        by: i64,
    },
    /// `insert T P V` or `insert T P V C`: the transaction inserts the value into the page, in a slot of this capacity
    /// in bytes, or of the value's length where the line gives none.
    Insert {
        name: Word,
        ordinal: u32,
        page: PageNo,
        value: Bytes,
        capacity: Option<u16>,
    },
    /// `delete T R`: the transaction deletes the record.
    Delete {
        name: Word,
        ordinal: u32,
        rid: Rid,
    },
    /// `save T S`: the transaction sets a mark.
    Save {
        name: Word,
        ordinal: u32,
        mark: Word,
    },
    /// `back T S`: the transaction rolls back to the mark.
    Back {
        name: Word,
        ordinal: u32,
        mark: Word,
    },
    /// `rollback T`: the transaction rolls back wholly.
    Rollback {
        name: Word,
        ordinal: u32,
    },
    /// `commit T`: the transaction commits.
    Commit {
        name: Word,
        ordinal: u32,
    },
    /// `I ask P s` or `I ask P x`: the instance asks for the page, shared or exclusive.
    Ask {
        inst: InstNo,
        page: PageNo,
        mode: Mode,
    },
    /// `I give P`: the instance gives the page to the one that asked for it first.
    Give {
        inst: InstNo,
        page: PageNo,
    },
    /// `I take P`: the instance takes the page that is on its way to it.
    Take {
        inst: InstNo,
        page: PageNo,
    },
    /// `I evict P`: the instance drops its copy of the page.
    Evict {
        inst: InstNo,
        page: PageNo,
    },
    /// `I flush P`: the instance writes the page to disk.
    Flush {
        inst: InstNo,
        page: PageNo,
    },
    /// `I force`: the instance forces its log.
    Force {
        inst: InstNo,
    },
    /// `I check begin`: the instance begins a checkpoint.
    CheckBegin {
        inst: InstNo,
    },
    /// `I check end`: the instance ends the checkpoint that it began.
    CheckEnd {
        inst: InstNo,
    },
    /// `fail I`: the instance fails.
    Fail {
        inst: InstNo,
    },
    /// `fuse K`: so many device calls pass, and every later one fails.
    Fuse {
        calls: u32,
    },
    /// `fault K`: the device call of this number alone fails, counted from the next.
    Fault {
        call: u32,
    },
    /// `fail all PICK`: all instances fail, and the devices crash, each byte that isn't stable as the pick says.
    FailAll {
        pick: Pick,
    },
    /// `recover I by J` or `recover I by J K`: instance J recovers instance I, in at most so many steps where the line says how
    /// many.
    Recover {
        inst: InstNo,
        by: InstNo,
        most: Option<u64>,
    },
    /// `join I`: the instance joins.
    Join {
        inst: InstNo,
    },
    /// `reopen`: the complex is opened again from its devices.
    Reopen,
    /// `recover all`: each instance that is down recovers itself.
    RecoverAll,
    /// `join all`: each instance that isn't up joins.
    JoinAll,
    /// `where P`: it is shown where the page is.
    Where {
        page: PageNo,
    },
    /// `table`: the records are shown.
    Table,
}

/// A line of a script.
#[derive(Drop)]
pub struct Line {
    /// Its number in the text, counted from 1.
    pub number: u32,
    /// The session in which it stands, 0 outside the sessions.
    pub session: u8,
    pub form: Form,
}
