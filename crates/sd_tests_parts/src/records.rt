//! Records by hand: each kind read and written again, and bytes that are no record.

use sd_base::Refusal;
use sd_logrec::Record;
use std::alloc::Global;
use std::test::Fail;

const START: [u8; 13] = [1, 0, 0, 0, 0, 0, 0, 0, 1, 0, 0, 0, 1];

const UPDATE: [u8; 41] = [
    2, 0, 0, 0, 0, 0, 0, 0, 2, 1, 0, 0, 0, 1, 0, 0, 0, 1, 0, 0, 0, 0, 0, 0, 0, 0, 0, 0, 0, 0, 0, 0,
    0, 3, 0xff, 0xff, 0, 3, 0x72, 0x65, 0x64,
];

const CLR: [u8; 42] = [
    3, 0, 0, 0, 0, 0, 0, 0, 5, 8, 0, 0, 0, 2, 0, 0, 0, 9, 0, 0, 0, 0, 0, 0, 0, 4, 0, 0, 0, 0, 0, 0,
    0, 3, 0, 0, 3, 0xff, 0, 0xa7, 0, 0,
];

const COMMIT: [u8; 26] = [
    4, 0, 0, 0, 0, 0, 0, 0, 3, 1, 0, 0, 0, 1, 0, 0, 0, 1, 0, 0, 0, 0, 0, 0, 0, 2,
];

const END: [u8; 26] = [
    5, 0, 0, 0, 0, 0, 0, 0, 7, 1, 0, 0, 0, 1, 0, 0, 0, 1, 0, 0, 0, 0, 0, 0, 0, 6,
];

const BEGIN_CHECK: [u8; 9] = [6, 0x3f, 0xff, 0xff, 0xff, 0xff, 0xff, 0xff, 0xff];

// Two transactions, 1.1.2 and 1.2.1, and two pages, 0 and 7.
const END_CHECK: [u8; 95] = [
    7, 0, 0, 0, 0, 0, 0, 0, 9, 0, 0, 0, 0, 0, 0, 0, 8, 0, 2, 1, 0, 0, 0, 1, 0, 0, 0, 2, 0, 0, 0, 0,
    0, 0, 0, 2, 0, 0, 0, 0, 0, 0, 0, 4, 1, 0, 0, 0, 2, 0, 0, 0, 1, 0, 0, 0, 0, 0, 0, 0, 5, 0, 0, 0,
    0, 0, 0, 0, 7, 0, 2, 0, 0, 0, 0, 0, 0, 0, 0, 0, 0, 0, 2, 0, 0, 0, 7, 0, 0, 0, 0, 0, 0, 0, 4,
];

// Whether a record of this LSN is read from the bytes with more behind them, and is written as they stand.
fn is_read(alloc: Global, lsn: u64, text: &[u8]) -> Result<bool, Refusal> {
    let mut more = text.to_vec(alloc)?;
    more.extend_from_slice(&[1, 2])?;
    let (record, place) = Record::take(alloc, &more, 0)?;
    let mut out = Vec::new(alloc);
    record.put(&mut out)?;
    Ok(
        place == text.len()
            && record.len() == text.len()
            && record.lsn() == lsn
            && out.as_slice() == text,
    )
}

#[test]
fn each_kind_is_read_and_written_again(rt: HostRuntime) -> Result<(), Fail> {
    let alloc = rt.alloc();
    let mut longest = UPDATE[..32].to_vec(alloc)?;
    longest.extend_from_slice(&[1, 0, 1, 0])?;
    longest.extend_from_slice(&[0x61; 256])?;
    longest.extend_from_slice(&[1, 0])?;
    longest.extend_from_slice(&[0x62; 256])?;
    let kinds = [
        (1, START.as_slice()),
        (2, UPDATE.as_slice()),
        (2, longest.as_slice()),
        (5, CLR.as_slice()),
        (3, COMMIT.as_slice()),
        (7, END.as_slice()),
        (4611686018427387903, BEGIN_CHECK.as_slice()),
        (9, END_CHECK.as_slice()),
    ];
    for (lsn, text) in kinds {
        assert!(rt; is_read(alloc, lsn, text)?, "the record of LSN {lsn}");
    }
    Ok(())
}

#[test]
fn bytes_out_of_the_table_are_no_record(rt: HostRuntime) -> Result<(), Fail> {
    let places = [
        (COMMIT.as_slice(), 0, 0),
        (COMMIT.as_slice(), 0, 10),
        (COMMIT.as_slice(), 8, 0),
        (COMMIT.as_slice(), 1, 0x40),
        (COMMIT.as_slice(), 9, 9),
        (UPDATE.as_slice(), 37, 4),
        (CLR.as_slice(), 39, 0xa8),
        (END_CHECK.as_slice(), 48, 1),
        (END_CHECK.as_slice(), 74, 7),
    ];
    for (text, place, byte) in places {
        let mut other = text.to_vec(rt.alloc())?;
        if let Some(changed) = other.get_mut(place) {
            *changed = byte;
        }
        let taken = Record::take(rt.alloc(), &other, 0);
        assert!(rt;
            matches!(taken, Err(Refusal::BadRecord { at: 0 })),
            "byte {place} is {byte}"
        );
    }
    Ok(())
}
