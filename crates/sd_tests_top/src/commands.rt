//! Commands with what they write, streams and devices that fail.

use sd_base::{MemSink, MemSource, OpenGate, Pick, Trouble};
use sd_rig::{MemRig, Rig};
use sd_top::{Status, note_bad_line, place, top};
use std::alloc::Global;
use std::test::Fail;

const FIVE_LINES: &[u8] = b"complex 1 1 2\n1 begin a\ninsert a 0 red\ncommit a\ntable\n";

const FIVE_REPLIES: &[u8] =
    b"complex 1 1 2\na begin 1.1.1\na insert 0.0\na commit\n0.0 red\ntable 1\n";

const REPLAY: &[&str] = &["replay"];

// The words as a program gets them.
fn given(alloc: Global, words: &[&str]) -> Result<Vec<String>, Fail> {
    let mut out = Vec::new(alloc);
    for word in words {
        out.push(String::from_str(alloc, word)?)?;
    }
    Ok(out)
}

// The status of a command whose reads and writes of these numbers fail, over these devices with this trouble, what it wrote, and
// the devices that came back.
fn ran_on<G: Rig + Drop>(
    alloc: Global,
    mut rig: G,
    words: &[&str],
    text: &[u8],
    reads: &[u64],
    writes: &[u64],
    trouble: Trouble,
) -> Result<(Status, Vec<u8>, G), Fail> {
    let words = given(alloc, words)?;
    let mut source = MemSource::new(text.to_vec(alloc)?, reads.to_vec(alloc)?);
    let mut sink = MemSink::new(alloc, 4_096, writes.to_vec(alloc)?)?;
    rig.arm(trouble);
    let done = top(alloc, &words, &mut source, &mut sink, rig, &OpenGate);
    Ok((done.status, sink.text().to_vec(alloc)?, done.rig))
}

// The same over blank devices, which are given up.
fn ran(
    alloc: Global,
    words: &[&str],
    text: &[u8],
    reads: &[u64],
    writes: &[u64],
    trouble: Trouble,
) -> Result<(Status, Vec<u8>), Fail> {
    let blank = MemRig::blank(alloc)?;
    let (status, written, _) = ran_on(alloc, blank, words, text, reads, writes, trouble)?;
    Ok((status, written))
}

#[test]
fn texts_have_their_reports(rt: HostRuntime) -> Result<(), Fail> {
    let texts: [(&[u8], Status, &[u8]); 8] = [
        (FIVE_LINES, Status::Done, FIVE_REPLIES),
        (
            b"complex 1 2 2\n1 begin a\ninsert a 1 blue\ninsert a 0 red\ncommit a\ntable\n1 begin b\ninsert b 0 x\ncommit b\ntable",
            Status::Done,
            b"complex 1 2 2\na begin 1.1.1\na insert 1.0\na insert 0.0\na commit\n0.0 red\n1.0 blue\ntable 2\nb begin 1.1.2\nb insert 0.1\nb commit\n0.0 red\n0.1 x\n1.0 blue\ntable 3\n",
        ),
        (
            b"complex 1 1 2\n1 begin a\ncommit a\ninsert a 0 red\ncommit a\ntable\n",
            Status::Done,
            b"complex 1 1 2\na begin 1.1.1\na commit\na ended\na ended\ntable 0\n",
        ),
        (
            b"complex 1 1024 2\ntable\n",
            Status::Done,
            b"complex 1 1024 2\ntable 0\n",
        ),
        (
            b"complex 1 2 1\n1 begin s\ninsert s 0 x0\ninsert s 1 y0\ncommit s\nwhere 1\nwhere 0\ntable\n",
            Status::Done,
            b"complex 1 2 1\ns begin 1.1.1\ns insert 0.0\ns insert 1.0\ns commit\n1 excl 1 lsn 3 dirty\n0 free\n0.0 x0\n1.0 y0\ntable 2\n",
        ),
        (b"", Status::BadLine, b"bad line 1 order\n"),
        (
            b"complex 1 1 2\n1 begin a\ntable\n",
            Status::Done,
            b"complex 1 1 2\na begin 1.1.1\ntable 0\n",
        ),
        (
            b"complex 1 1 2\n1 ask 1 s\n",
            Status::BadLine,
            b"bad line 2 place\n",
        ),
    ];
    for (text, status, report) in texts {
        let (ended, written) = ran(rt.alloc(), REPLAY, text, &[], &[], Trouble::Clear)?;
        assert_eq!(rt; ended, status);
        assert_eq!(rt; &written[..], report);
    }
    Ok(())
}

#[test]
fn a_stream_that_fails_and_other_words_write_nothing(rt: HostRuntime) -> Result<(), Fail> {
    // The source is asked twice: for the text, and for its end.
    let commands: [(&[&str], &[u64], &[u64], Status); 12] = [
        (REPLAY, &[1], &[], Status::ReadFault),
        (REPLAY, &[2], &[], Status::ReadFault),
        (REPLAY, &[], &[1], Status::WriteFault),
        (&["Replay"], &[], &[], Status::Usage),
        (&[""], &[], &[], Status::Usage),
        (&[], &[], &[], Status::Usage),
        (&["run"], &[], &[], Status::Usage),
        (&["replay", "5"], &[], &[], Status::Usage),
        (&["replay", "5", "6"], &[], &[], Status::Usage),
        (&["replay", "--dir"], &[], &[], Status::Usage),
        (&["replay", "--help"], &[], &[], Status::Usage),
        (
            &["replay", "--dir", "a", "--dir", "a"],
            &[],
            &[],
            Status::Usage,
        ),
    ];
    for (words, reads, writes, status) in commands {
        let (ended, written) = ran(rt.alloc(), words, FIVE_LINES, reads, writes, Trouble::Clear)?;
        assert_eq!(rt; ended, status, "{words:?}");
        assert!(rt; written.is_empty());
    }
    Ok(())
}

// The source isn't asked: its first call would fail.
#[test]
fn a_number_gives_a_run_with_its_summary(rt: HostRuntime) -> Result<(), Fail> {
    let commands: [(&[&str], &[u8]); 4] = [
        (
            &["gen", "7", "0"],
            b"gen 7 0\ncommits 0\nrollbacks 0\nfailures 0\ntotal 1000\n",
        ),
        (
            &["gen", "007", "0"],
            b"gen 7 0\ncommits 0\nrollbacks 0\nfailures 0\ntotal 1000\n",
        ),
        (
            &["gen", "7", "100"],
            b"gen 7 100\ncommits 82\nrollbacks 14\nfailures 4\ntotal 1000\n",
        ),
        (
            &["--dir=b", "gen", "00000000000000000007", "0007"],
            b"gen 7 7\ncommits 6\nrollbacks 1\nfailures 0\ntotal 1000\n",
        ),
    ];
    for (words, summary) in commands {
        let (ended, written) = ran(rt.alloc(), words, FIVE_LINES, &[1], &[], Trouble::Clear)?;
        assert_eq!(rt; ended, Status::Done, "{words:?}");
        assert_eq!(rt; &written[..], summary);
    }
    Ok(())
}

#[test]
fn a_number_or_a_count_out_of_its_range_is_no_command(rt: HostRuntime) -> Result<(), Fail> {
    let commands: [&[&str]; 10] = [
        &["gen"],
        &["gen", "7"],
        &["gen", "7", "1", "1"],
        &["gen", "7", "2001"],
        &["gen", "7", "00007"],
        &["gen", "+7", "1"],
        &["gen", "7x", "1"],
        &["gen", "", "1"],
        &["gen", "18446744073709551616", "1"],
        &["gen", "000000000000000000007", "1"],
    ];
    for words in commands {
        let (ended, written) = ran(rt.alloc(), words, FIVE_LINES, &[], &[], Trouble::Clear)?;
        assert_eq!(rt; ended, Status::Usage, "{words:?}");
        assert!(rt; written.is_empty());
    }
    Ok(())
}

// The report says the cause in a word, and a person is told it in a sentence, with the line.
#[test]
fn a_bad_line_is_told_to_a_person(rt: HostRuntime) -> Result<(), Fail> {
    let texts: [(&[u8], &[u8]); 3] = [
        (
            b"complex 1 1 2\n1 begin a\n1 begin a\ntable\n",
            b"sdaries: line 3 is bad: an earlier line has begun a transaction of its name.\n    1 begin a\n",
        ),
        (
            b"complex 1 1 2\nt\xc3\xa4ble",
            b"sdaries: line 2 is bad: it has a byte that is neither a printed one of ASCII nor a space.\n    t\\xc3\\xa4ble\n",
        ),
        (
            b"",
            b"sdaries: line 1 is bad: the script begins with one line `complex N P F`, and has no other.\n",
        ),
    ];
    for (text, note) in texts {
        assert_eq!(rt; &noted(rt.alloc(), text)?[..], note);
    }
    assert!(rt; noted(rt.alloc(), FIVE_LINES)?.is_empty());
    Ok(())
}

// What a person is told of a script over blank devices.
fn noted(alloc: Global, text: &[u8]) -> Result<Vec<u8>, Fail> {
    let words = given(alloc, REPLAY)?;
    let mut source = MemSource::new(text.to_vec(alloc)?, Vec::new(alloc));
    let mut sink = MemSink::new(alloc, 4_096, Vec::new(alloc))?;
    let mut told = MemSink::new(alloc, 4_096, Vec::new(alloc))?;
    let done = top(
        alloc,
        &words,
        &mut source,
        &mut sink,
        MemRig::blank(alloc)?,
        &OpenGate,
    );
    if let Some(bad) = &done.bad {
        note_bad_line(alloc, bad, &mut told)?;
    }
    Ok(told.text().to_vec(alloc)?)
}

// A call over given devices doesn't use the folder.
#[test]
fn words_name_a_folder(rt: HostRuntime) -> Result<(), Fail> {
    let commands: [(&[&str], Option<&str>, Status); 8] = [
        (REPLAY, None, Status::Done),
        (
            &["replay", "--dir", "no/folder"],
            Some("no/folder"),
            Status::Done,
        ),
        (&["--dir=b", "replay"], Some("b"), Status::Done),
        (&["replay", "--dir=-b"], Some("-b"), Status::Done),
        (&["replay", "--dir="], Some(""), Status::Done),
        (&["replay", "--dir", "-b"], None, Status::Usage),
        (&["run", "--dir", "b"], None, Status::Usage),
        (&["--dir", "replay"], None, Status::Usage),
    ];
    for (words, folder, status) in commands {
        let path = place(rt.alloc(), &given(rt.alloc(), words)?)?;
        assert_eq!(rt; path.as_ref().map(|p| p.as_str()), folder, "{words:?}");
        let (ended, written) = ran(rt.alloc(), words, FIVE_LINES, &[], &[], Trouble::Clear)?;
        assert_eq!(rt; ended, status, "{words:?}");
        assert_eq!(rt; written.as_slice() == FIVE_REPLIES, status == Status::Done);
    }
    Ok(())
}

// Nine syncs and nine reads open the complex, four calls force the Start of instance 1, and the next one reads the page of the insert.
#[test]
fn a_device_that_fails_in_the_opening_is_told_once(rt: HostRuntime) -> Result<(), Fail> {
    for call in [1u64, 9, 10, 18, 19, 20, 21, 22] {
        let (ended, written) = ran(
            rt.alloc(),
            REPLAY,
            FIVE_LINES,
            &[],
            &[],
            Trouble::Fault(call),
        )?;
        assert_eq!(rt; ended, Status::Device, "call {call}");
        assert_eq!(rt; &written[..], b"device\n".as_slice());
    }
    let (ended, written) = ran(rt.alloc(), REPLAY, FIVE_LINES, &[], &[], Trouble::Fault(23))?;
    assert_eq!(rt; ended, Status::Done);
    assert_eq!(rt;
        &written[..],
        b"complex 1 1 2\na begin 1.1.1\na fault\na commit\ntable 0\n".as_slice()
    );
    Ok(())
}

// A page is changed on one instance, changed and rolled back on another, written there, and read on the first again. Its device calls are
// 18 to open, 4 for each join, a read of the page, 4 for the commit, 4 for the end of the rollback, and 5 for the page write.
const PASSED_ON: &[u8] =
    b"complex 2 1 2\n1 begin a\ninsert a 0 red\ncommit a\n2 begin b\nwrite b 0.0 tan\nsave b s\nwrite b 0.0 sky\nback b s\nrollback b\n2 flush 0\n1 begin c\nread c 0.0\ncommit c\ntable\n";

const PASSED_REPORT: &[u8] =
    b"complex 2 1 2\na begin 1.1.1\na insert 0.0\na commit\nb begin 2.1.1\nb write 0.0\nb save s\nb write 0.0\nb back s\nb rollback\n2 flushed 0\nc begin 1.1.2\nc read 0.0 = red\nc commit\n0.0 red\ntable 1\n";

#[test]
fn a_device_that_fails_at_any_call_is_told(rt: HostRuntime) -> Result<(), Fail> {
    for call in 18..42u64 {
        let (ended, written) = ran(
            rt.alloc(),
            REPLAY,
            PASSED_ON,
            &[],
            &[],
            Trouble::Fault(call),
        )?;
        let opened = call > 26;
        let untold = &written[..] == PASSED_REPORT;
        assert_eq!(rt;
            ended,
            if opened { Status::Done } else { Status::Device },
            "call {call}"
        );
        assert_eq!(rt; untold, call == 41, "call {call}");
    }
    Ok(())
}

// These texts, one behind the other.
fn joined(alloc: Global, parts: &[&[u8]]) -> Result<Vec<u8>, Fail> {
    let mut text = Vec::new(alloc);
    for part in parts {
        text.extend_from_slice(part)?;
    }
    Ok(text)
}

// A transaction inserts a record, and then a line arms the devices. The commit takes four calls; the first page write begins with a read
// and goes on with four calls, and the second one takes none.
#[test]
fn what_a_line_arms_fails(rt: HostRuntime) -> Result<(), Fail> {
    let troubles: [(&[u8], &[u8]); 7] = [
        (b"fault 4\n", b"a cut\n1 down\n1 down\n"),
        (b"fault 5\n", b"a commit\n1 fault\n1 flushed 0\n"),
        (b"fault 6\n", b"a commit\n1 fault\n1 down\n"),
        (b"fuse 3\n", b"a cut\n1 down\n1 down\n"),
        (b"fuse 4\n", b"a commit\n1 fault\n1 fault\n"),
        (b"fuse 9\n", b"a commit\n1 flushed 0\n1 flushed 0\n"),
        (b"fault 1000000\n", b"a commit\n1 flushed 0\n1 flushed 0\n"),
    ];
    for (armed, told) in troubles {
        let script = joined(
            rt.alloc(),
            &[
                b"complex 1 1 2\n1 begin a\ninsert a 0 red\n",
                armed,
                b"commit a\n1 flush 0\n1 flush 0\n",
            ],
        )?;
        let due = joined(
            rt.alloc(),
            &[b"complex 1 1 2\na begin 1.1.1\na insert 0.0\n", armed, told],
        )?;
        let (ended, written) = ran(rt.alloc(), REPLAY, &script, &[], &[], Trouble::Clear)?;
        assert_eq!(rt; ended, Status::Done);
        assert_eq!(rt; written.as_slice(), due.as_slice());
    }
    Ok(())
}

// The devices that a run leaves, where it leaves a transaction open whose change is on its page.
fn left_open(alloc: Global) -> Result<MemRig, Fail> {
    let script =
        b"complex 1 1 2\n1 begin a\ninsert a 0 red\ncommit a\n1 begin b\nwrite b 0.0 tan\n1 flush 0\n";
    let blank = MemRig::blank(alloc)?;
    let (status, _, rig) = ran_on(alloc, blank, REPLAY, script, &[], &[], Trouble::Clear)?;
    if status != Status::Done {
        return Err("the first run isn't done".into());
    }
    Ok(rig)
}

#[test]
fn a_second_run_goes_on_where_the_first_ended(rt: HostRuntime) -> Result<(), Fail> {
    for pick in [Pick::Keep, Pick::Lose, Pick::Tear, Pick::Junk] {
        let mut rig = left_open(rt.alloc())?;
        rig.crash(pick);
        let script = b"complex 1 1 2\ntable\n1 begin c\nread c 0.0\n";
        let (ended, written, _) = ran_on(
            rt.alloc(),
            rig,
            REPLAY,
            script,
            &[],
            &[],
            Trouble::Clear,
        )?;
        assert_eq!(rt; ended, Status::Done);
        assert_eq!(rt;
            &written[..],
            b"complex 1 1 2\n0.0 red\ntable 1\nc begin 1.2.1\nc read 0.0 = red\n".as_slice()
        );
    }
    Ok(())
}

// The first record of instance 1's log is of a type that there isn't; a page has an open slot that is no image of it.
#[test]
fn a_damaged_byte_is_told_with_its_place(rt: HostRuntime) -> Result<(), Fail> {
    let pokes: [(u8, u32, u8, &[u8]); 2] = [
        (1, 135, 8, b"damaged 1 135\n"),
        (0, 3_075, 0xa5, b"damaged 0 3075\n"),
    ];
    for (dev, at, byte, text) in pokes {
        let mut rig = left_open(rt.alloc())?;
        rig.poke(dev, at, byte)?;
        let (ended, written, _) = ran_on(
            rt.alloc(),
            rig,
            REPLAY,
            FIVE_LINES,
            &[],
            &[],
            Trouble::Clear,
        )?;
        assert_eq!(rt; ended, Status::Damaged);
        assert_eq!(rt; &written[..], text);
    }
    Ok(())
}
