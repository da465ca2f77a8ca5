//! Logs by hand: their bytes, forces that are stopped, and areas that are damaged.

ghost use Rattle.std.specs.Prelude.{◌≡◌, [], ℕ, ◌^◌, ◌<◌, ◌≤◌, option_copied, IfOk};
ghost use Rattle.sd_logrec.specs.Lent.{update_record};
ghost use Rattle.sd_logrec.specs.Spelling.{HasSpelling, IsValue, spelling};
ghost use Rattle.sd_rig.specs.Devices.{LeavesOnly};
ghost use Rattle.sd_log.specs.Logs.{StandsOn};

use sd_base::{InstNo, Lsn, Memory, PageNo, Pick, Refusal, Trouble, TxnId, lent_value};
use sd_log::{Area, Log, Placed, ReadLog};
use sd_logrec::{AREA_LEN, Lent, Record, Update};
use sd_rig::{MemRig, Rig};
use std::alloc::Global;
use std::test::Fail;

// Two groups: the start of epoch 1, and transaction 1.1.1, which puts `red` into slot 0 of page 0 and commits. Behind
// them a closed gate.
const TWO_GROUPS: [u8; 91] = [
    0xa5, 0, 0, 0, 13, 1, 0, 0, 0, 0, 0, 0, 0, 1, 0, 0, 0, 1, //
    0xa5, 0, 0, 0, 67, 2, 0, 0, 0, 0, 0, 0, 0, 2, 1, 0, 0, 0, 1, 0, 0, 0, 1, 0, 0, 0, 0, 0, 0, 0,
    0, 0, 0, 0, 0, 0, 0, 0, 3, 0xff, 0xff, 0, 3, 0x72, 0x65, 0x64, //
    4, 0, 0, 0, 0, 0, 0, 0, 3, 1, 0, 0, 0, 1, 0, 0, 0, 1, 0, 0, 0, 0, 0, 0, 0, 2, //
    0,
];

// Reads the log from its device, which is made stable.
fn open<G: Rig>(alloc: Global, rig: &mut G, inst: InstNo) -> Result<Log, Refusal>
    ensures stands { IfOk result (λ log. StandsOn log (G.seen rig.new log.inst)) }
    ensures stable { IfOk result (λ log. LeavesOnly (G.seen rig.new log.inst) (G.leaves rig.new log.inst)) }
    ensures bare { IfOk result (λ log. log.tail ≡ []) }
{
    rig.sync(inst.get())?;
    Ok(ReadLog::read_in(alloc, rig, inst, 0)?.into_log(alloc)?)
}

// Transaction 1.1.1 puts `red` into slot 0 of page 0.
fn red(inst: InstNo) -> Update<'static>
    ensures { HasSpelling (update_record result) }
{
    let (epoch, seq) = (1, 1);
    Update {
        lsn: 2,
        txn: TxnId { inst, epoch, seq },
        prev: 0,
        page: PageNo::new(0).unwrap(),
        slot: 0,
        capacity: 3,
        before: None,
        after: Some(b"red"),
    }
}

fn commit(inst: InstNo, lsn: Lsn) -> Record
    requires low { 1 ≤ lsn }
    requires high { lsn < 2 ^ 62 }
    ensures fits { HasSpelling result }
{
    let (epoch, seq) = (1, 1);
    let txn = TxnId { inst, epoch, seq };
    let prev = lsn - 1;
    Record::Commit { lsn, txn, prev }
}

// Forces the start of epoch 1.
fn write_start(alloc: Global, rig: &mut MemRig, inst: InstNo) -> Result<(), Refusal> {
    let mut log = open(alloc, rig, inst)?;
    let start = Record::Start { lsn: 1, epoch: 1 };
    log.append(&Lent::whole(&start), 0)?;
    log.force(rig)?;
    Ok(())
}

// Forces the transaction.
fn write_red<G: Rig>(rig: &mut G, log: &mut Log, inst: InstNo) -> Result<(), Refusal>
    requires stands { StandsOn log.old (G.seen rig.old log.old.inst) }
    requires stable { LeavesOnly (G.seen rig.old log.old.inst) (G.leaves rig.old log.old.inst) }
{
    log.append(&Lent::update(&red(inst)), 78)?;
    log.append(&Lent::whole(&commit(inst, 3)), 0)?;
    log.force(rig)?;
    Ok(())
}

// Writes the two groups.
fn write_log(alloc: Global, rig: &mut MemRig, inst: InstNo) -> Result<Log, Refusal> {
    write_start(alloc, rig, inst)?;
    let mut log = open(alloc, rig, inst)?;
    write_red(rig, &mut log, inst)?;
    Ok(log)
}

fn has_two_groups(alloc: Global, rig: &MemRig) -> Result<bool, Memory> {
    let image = rig.image(alloc, 1)?;
    Ok(&image[130..221] == TWO_GROUPS.as_slice())
}

// Whether one more change of the page is found beside the first.
fn knows_its_page(alloc: Global, log: &mut Log, inst: InstNo) -> Result<bool, Refusal> {
    log.append(&Lent::update(&red(inst)), 78)?;
    let places = log.of_page(alloc, PageNo::new(0).unwrap())?;
    Ok(places.as_slice() == [1, 3].as_slice())
}

// Whether the two groups stand on a device to which they are written, and their log knows the page.
fn stand_as_written(alloc: Global, rig: &mut MemRig) -> Result<bool, Refusal> {
    let inst = InstNo::new(1).unwrap();
    let mut log = write_log(alloc, rig, inst)?;
    let stand = has_two_groups(alloc, rig)?;
    let knows = knows_its_page(alloc, &mut log, inst)?;
    Ok(stand && knows)
}

// The same on devices that are made.
fn stand_anew(alloc: Global) -> Result<bool, Refusal> {
    let mut rig = MemRig::blank(alloc)?;
    stand_as_written(alloc, &mut rig)
}

#[test]
fn groups_stand_byte_for_byte_and_their_pages_are_known(rt: HostRuntime) {
    assert!(rt; matches!(stand_anew(rt.alloc()), Ok(true)));
}

// Writes one more group, in which transaction 1.1.1 puts `red` once more.
fn write_more<G: Rig>(alloc: Global, rig: &mut G, inst: InstNo) -> Result<(), Refusal> {
    let mut log = open(alloc, rig, inst)?;
    let change = Update {
        lsn: 4,
        prev: 2,
        ..red(inst)
    };
    log.append(&Lent::update(&change), 78)?;
    log.force(rig)?;
    Ok(())
}

// Whether a log begins at these places where the records from the LSNs 1, 2, 4 and 5 on are needed.
fn starts_at(log: &Log, places: [u32; 4]) -> bool {
    let [one, two, four, five] = places;
    log.start_for(1) == one
        && log.start_for(2) == two
        && log.start_for(4) == four
        && log.start_for(5) == five
}

// Whether a log of three groups has those behind the first one alone, once it begins at the second.
fn begins_later(alloc: Global, rig: &mut MemRig, inst: InstNo) -> Result<bool, Refusal> {
    write_log(alloc, rig, inst)?;
    write_more(alloc, rig, inst)?;
    let mut log = open(alloc, rig, inst)?;
    let before = starts_at(&log, [0, 18, 90, 136]);
    let place = log.start_for(2);
    log.begin_at(place);
    let after = starts_at(&log, [18, 18, 90, 136]);
    let page = log.of_page(alloc, PageNo::new(0).unwrap())?;
    let known = page.as_slice() == [0, 2].as_slice();
    Ok(before && after && known && has_last_records(&log)?)
}

// Whether a log has the records behind its first group, and no others.
fn has_last_records(log: &Log) -> Result<bool, Memory> {
    if log.count() != 3 {
        return Ok(false);
    }
    let (first, last) = (log.record(0)?, log.record(2)?);
    Ok(
        (first.place, first.rec.lsn(), first.forced) == (23, 2, true)
            && (last.place, last.rec.lsn(), last.forced) == (95, 4, true)
            && log.lsn(1) == 3,
    )
}

#[test]
fn a_log_that_begins_later_has_the_groups_behind(rt: HostRuntime) {
    let one = InstNo::new(1).unwrap();
    let mut rig = MemRig::blank(rt.alloc()).expect(&rt, "memory for devices");
    assert!(rt; matches!(begins_later(rt.alloc(), &mut rig, one), Ok(true)));
}

// Whether a force of two more records is stopped by the trouble.
fn is_stopped<G: Rig>(
    rig: &mut G,
    log: &mut Log,
    inst: InstNo,
    trouble: Trouble,
) -> Result<bool, Refusal>
    requires stands { StandsOn log.old (G.seen rig.old log.old.inst) }
    requires stable { LeavesOnly (G.seen rig.old log.old.inst) (G.leaves rig.old log.old.inst) }
{
    log.append(&Lent::whole(&commit(inst, 7)), 0)?;
    log.append(&Lent::whole(&commit(inst, 8)), 0)?;
    rig.arm(trouble);
    Ok(log.force(rig).is_err())
}

// How many records a log has on its device.
fn count<G: Rig>(alloc: Global, rig: &mut G, inst: InstNo) -> Result<usize, Refusal> {
    let log = ReadLog::read_in(alloc, rig, inst, 0)?;
    Ok(log.scan().len())
}

// A force that is stopped by this trouble, and a crash: whether the log has the tail behind it then, or nothing more.
fn is_cut_whole(
    alloc: Global,
    rig: &mut MemRig,
    inst: InstNo,
    trouble: Trouble,
    pick: Pick,
) -> Result<bool, Refusal> {
    let mut log = open(alloc, rig, inst)?;
    let old = log.count();
    let failed = is_stopped(rig, &mut log, inst, trouble)?;
    rig.crash(pick);
    let left = count(alloc, rig, inst)?;
    Ok(failed && (left == old || left == old + 2))
}

// The same of each of the first four calls, which fails once or from then on.
fn are_cut_whole(alloc: Global, rig: &mut MemRig, pick: Pick) -> Result<bool, Refusal> {
    let inst = InstNo::new(1).unwrap();
    for calls in 0..4u64 {
        for trouble in [Trouble::Fuse(calls), Trouble::Fault(calls + 1)] {
            if !is_cut_whole(alloc, rig, inst, trouble, pick)? {
                return Ok(false);
            }
        }
    }
    Ok(true)
}

#[test]
fn a_stopped_force_leaves_the_tail_whole_or_not_at_all(rt: HostRuntime) {
    let mut rig = MemRig::blank(rt.alloc()).expect(&rt, "memory for devices");
    for pick in [Pick::Keep, Pick::Lose, Pick::Tear, Pick::Junk] {
        assert!(rt;
            matches!(are_cut_whole(rt.alloc(), &mut rig, pick), Ok(true)),
            "{pick:?}"
        );
    }
}

// What is told of the two groups with this byte at this place: whether a length is spoilt, and where.
fn damage(alloc: Global, inst: InstNo, place: usize, byte: u8) -> Result<(bool, u64), Refusal> {
    let mut bytes = TWO_GROUPS;
    if let Some(spoilt) = bytes.get_mut(place) {
        *spoilt = byte;
    }
    let mut area = Vec::from_slice(alloc, &bytes)?;
    area.resize(AREA_LEN as usize, 0)?;
    Ok(match ReadLog::of_area(alloc, inst, 0, &area)? {
        Area::Broken {
            fault: Refusal::BadLog { at },
            ..
        } => (true, at),
        Area::Broken {
            fault: Refusal::BadRecord { at },
            ..
        } => (false, at),
        _ => (false, 0),
    })
}

// The place of a byte, the byte, whether it spoils a group's length, and the place that is told.
const DAMAGES: [(usize, u8, bool, u64); 8] = [
    (1, 1, true, 0),
    (4, 8, true, 0),
    (4, 9, false, 5),
    (19, 1, true, 18),
    (22, 40, false, 23),
    (22, 68, false, 90),
    (64, 8, false, 64),
    (73, 9, false, 64),
];

#[test]
fn a_damaged_byte_is_told_with_its_place(rt: HostRuntime) {
    let inst = InstNo::new(1).unwrap();
    for (place, byte, is_length, told) in DAMAGES {
        let found = damage(rt.alloc(), inst, place, byte);
        let is_told = matches!(found, Ok((length, at)) if length == is_length && at == told);
        assert!(rt; is_told, "byte {place} is {byte}");
    }
}

// The byte of which 100 are the value before a change, and that of the value after it, where there is one.
const VALUES: [(Option<u8>, Option<u8>); 3] = [
    (None, Some(b'a')),
    (Some(b'a'), Some(b'b')),
    (Some(b'b'), None),
];

// A value of 100 bytes.
fn long(byte: Option<u8>) -> Option<[u8; 100]> {
    byte.map(|byte| [byte; 100])
}

fn lent(value: &Option<[u8; 100]>) -> Option<&[u8]>
    ensures { IsValue (option_copied result) }
{
    match value {
        Some(bytes) => all(bytes),
        None => None,
    }
}

fn all(bytes: &[u8; 100]) -> Option<&[u8]>
    ensures { IsValue (option_copied result) }
{
    Some(bytes.as_slice())
}

// Transaction 1.1.1 changes slot 0 of page 0 with these values.
fn change<'a>(inst: InstNo, before: Option<&'a [u8]>, after: Option<&'a [u8]>) -> Update<'a>
    requires before { IsValue (option_copied before) }
    requires after { IsValue (option_copied after) }
    ensures { HasSpelling (update_record result) }
{
    let capacity = 100;
    Update {
        capacity,
        before,
        after,
        ..red(inst)
    }
}

// Whether the record of this index is this one, and stands in a group or in the tail.
fn is_there(log: &Log, index: usize, change: &Update, is_forced: bool) -> Result<bool, Memory> {
    if index >= log.count() {
        return Ok(false);
    }
    let Placed { rec, forced, .. } = log.record(index)?;
    Ok(forced == is_forced && is_same(&rec, change))
}

fn is_same(rec: &Record, change: &Update) -> bool {
    match rec {
        Record::Update {
            lsn,
            txn,
            prev,
            page,
            slot,
            capacity,
            before,
            after,
        } => {
            (*lsn, *prev, *slot, *capacity)
                == (change.lsn, change.prev, change.slot, change.capacity)
                && *txn == change.txn
                && *page == change.page
                && lent_value(before) == change.before
                && lent_value(after) == change.after
        }
        _ => false,
    }
}

// Appends a change with these values: whether it is read back as it was appended, from the tail and behind a force.
fn is_kept(
    alloc: Global,
    rig: &mut MemRig,
    before: Option<&[u8]>,
    after: Option<&[u8]>,
) -> Result<bool, Refusal>
    requires before { IsValue (option_copied before) }
    requires after { IsValue (option_copied after) }
{
    let inst = InstNo::new(1).unwrap();
    let change = change(inst, before, after);
    let mut log = open(alloc, rig, inst)?;
    let index = log.count();
    log.append(&Lent::update(&change), 178)?;
    let in_tail = is_there(&log, index, &change, false)?;
    log.force(rig)?;
    let in_group = is_there(&log, index, &change, true)?;
    Ok(in_tail && in_group && is_there(&open(alloc, rig, inst)?, index, &change, true)?)
}

#[test]
fn long_values_are_read_back_from_the_tail_and_behind_a_force(rt: HostRuntime) {
    let mut rig = MemRig::blank(rt.alloc()).expect(&rt, "memory for devices");
    for (before, after) in VALUES {
        let (old, new) = (long(before), long(after));
        let kept = is_kept(rt.alloc(), &mut rig, lent(&old), lent(&new));
        assert!(rt; matches!(kept, Ok(true)), "from {before:?} to {after:?}");
    }
}

// The numbers of a transaction, and whether the log has its commit.
const COMMITS: [(u8, u32, u32, bool); 5] = [
    (1, 1, 1, true),
    (1, 2, 1, true),
    (1, 1, 2, false),
    (1, 2, 2, false),
    (2, 1, 1, false),
];

// Puts the commit of transaction 1.2.1 and the end of 1.1.2 into the tail.
fn append_ends(log: &mut Log, inst: InstNo) -> Result<(), Refusal> {
    let (epoch, seq) = (2, 1);
    let commit = Record::Commit {
        lsn: 4,
        txn: TxnId { inst, epoch, seq },
        prev: 0,
    };
    log.append(&Lent::whole(&commit), 0)?;
    let (epoch, seq) = (1, 2);
    let end = Record::End {
        lsn: 5,
        txn: TxnId { inst, epoch, seq },
        prev: 0,
    };
    log.append(&Lent::whole(&end), 0)
}

#[test]
fn a_commit_counts_for_its_transaction_alone(rt: HostRuntime) -> Result<(), Fail> {
    let one = InstNo::new(1).ok_or("instance 1")?;
    let mut rig = MemRig::blank(rt.alloc())?;
    let mut log = write_log(rt.alloc(), &mut rig, one)?;
    append_ends(&mut log, one)?;
    for (number, epoch, seq, has) in COMMITS {
        let inst = InstNo::new(number).ok_or("an instance")?;
        let txn = TxnId { inst, epoch, seq };
        assert!(rt; log.has_commit(&txn) == has, "{number}.{epoch}.{seq}");
    }
    Ok(())
}
