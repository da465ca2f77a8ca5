//! Bad lines, and the first cause that holds of each.

use sd_base::{LineError, Refusal};
use sd_script::{Kind, Script};
use std::process::Abort;
use std::test::Fail;

/// Lines behind `complex 1 1 2` and `1 begin known`, and the cause for which each is bad.
static LINES: [(&[u8], LineError); 91] = [
    // A byte may not stand in a line, nor in a comment or a blank line.
    (b"# caf\xe9", LineError::Byte),
    (b"  \t", LineError::Byte),
    // The line may not stand here.
    (b"complex 1 1 1", LineError::Order),
    (b"complex x y z", LineError::Order),
    (b"  complex  1 1   1 ", LineError::Order),
    (b"complex 1 1", LineError::Word),
    // No form has these words.
    (b"paint a", LineError::Word),
    (b" # c", LineError::Word),
    (b"table # c", LineError::Word),
    (b"x force", LineError::Word),
    (b"1x force", LineError::Word),
    (b"1 force 1", LineError::Word),
    (b"1 ask 0 y", LineError::Word),
    (b"1 ask 0", LineError::Word),
    (b"fail all zap", LineError::Word),
    (b"fail x 1 2", LineError::Word),
    (b"recover x", LineError::Word),
    (b"recover 1 to 1", LineError::Word),
    (b"recover 1 by 1 1 1", LineError::Word),
    (b"table table", LineError::Word),
    (b" table  table ", LineError::Word),
    (b"add known 0.0 - 1", LineError::Word),
    (b"1  for ce", LineError::Word),
    (b"insert known 0 abc 3 3", LineError::Word),
    (b"session 1", LineError::Word),
    (b"1 put a b", LineError::Word),
    (b"1 check", LineError::Word),
    (b"1 check known", LineError::Word),
    (b"check 1 begin", LineError::Word),
    (b"1 trim", LineError::Word),
    (b"prepare known", LineError::Word),
    (b"decide known commit", LineError::Word),
    (b"sources 0", LineError::Word),
    // Digits alone stand for an instance.
    (b"01 force", LineError::Number),
    (b"0 force", LineError::Number),
    (b"99999999999 force", LineError::Number),
    (b"9 force", LineError::Place),
    (b" 9   force ", LineError::Place),
    (b"9999999999 force", LineError::Place),
    (b"01 check begin", LineError::Number),
    (b"0 check end", LineError::Number),
    (b"9 check end", LineError::Place),
    (b"9 begin known", LineError::Place),
    // The numbers of each form.
    (b"fail all", LineError::Number),
    (b"join x", LineError::Number),
    (b"join 0", LineError::Number),
    (b"recover all by 1", LineError::Number),
    (b"recover 9 by 1 0", LineError::Number),
    (b"recover 1 by 1 10000000000", LineError::Number),
    (b"read known 0", LineError::Number),
    (b"read known 0.", LineError::Number),
    (b"read known .0", LineError::Number),
    (b"read known 00.0", LineError::Number),
    (b"read known 0.01", LineError::Number),
    (b"read known 0.0.0", LineError::Number),
    (b"read A 0.1000", LineError::Number),
    (b"read known 10000000000.0", LineError::Number),
    (b"add known 0.0 -01", LineError::Number),
    (b"add known 0.0 --1", LineError::Number),
    (b"add known 0.0 -", LineError::Number),
    (b"add known 0.0 10000000000", LineError::Number),
    (b"insert known 0 abc 2", LineError::Number),
    (b"insert known 0 abc 65536", LineError::Number),
    (b"insert known 0 abc x", LineError::Number),
    (b"insert known 0 abc 03", LineError::Number),
    (b"fuse 1000001", LineError::Number),
    (b"fault 0", LineError::Number),
    (b"where x", LineError::Number),
    (b"1 give 01", LineError::Number),
    // Names and marks, told before a place, a name that was begun, and one that wasn't.
    (b"1 begin A", LineError::Name),
    (b"9 begin 1", LineError::Name),
    (b"1 begin abcdefghijklmnopq", LineError::Name),
    (b"save other S", LineError::Name),
    (b"save known 1", LineError::Name),
    (b"read Known 9.0", LineError::Name),
    (b"commit 1", LineError::Name),
    // Instances and pages.
    (b"2 force", LineError::Place),
    (b"fail 2", LineError::Place),
    (b"join 9", LineError::Place),
    (b"recover 1 by 2", LineError::Place),
    (b"recover 9 by 1", LineError::Place),
    (b"read other 1.0", LineError::Place),
    (b"read known 1024.0", LineError::Place),
    (b"read known 9999999999.999", LineError::Place),
    (b"where 1", LineError::Place),
    (b"1 ask 1 s", LineError::Place),
    (b"insert other 1 x", LineError::Place),
    // Names that were begun, and names that weren't.
    (b"1 begin known", LineError::Used),
    (b"read other 0.0", LineError::Unknown),
    (b"save other s", LineError::Unknown),
    (b"commit other", LineError::Unknown),
];

/// Texts that are bad at their first line.
static FIRST: [(&[u8], LineError); 12] = [
    (b"", LineError::Order),
    (b"paint a", LineError::Order),
    (b" # c", LineError::Order),
    (b" #", LineError::Order),
    (b"table", LineError::Order),
    (b"1 force", LineError::Order),
    (b"complex 1 1", LineError::Word),
    (b"complex 9 1 2", LineError::Number),
    (b"complex 1 1 1025", LineError::Number),
    (b"complex 1 1 2\r", LineError::Byte),
    (b"caf\xe9", LineError::Byte),
    (b"#caf\xe9", LineError::Byte),
];

/// Lines that read behind `complex 1 1 2` and `1 begin known`.
static GOOD: [&[u8]; 17] = [
    b" table",
    b"table ",
    b"  table  ",
    b"1  force",
    b" 1 ask  0   s ",
    b"  write  known   0.999  x  ",
    b"recover 1  by 1  9999999999 ",
    b"add known 0.0 -1",
    b"add known 0.0 0",
    b"add known 0.0 -0",
    b"  add  known  0.0   -0  ",
    b"",
    b"   ",
    b"#",
    b"# table",
    b"fuse 1000000",
    b"fault 1",
];

fn is_bad(rt: &(impl AllocGlobal + Abort), text: &[u8], line: u32, cause: LineError) -> bool {
    matches!(
        Script::read(rt.alloc(), text, Kind::Replay),
        Err(Refusal::BadLine { line: at, cause: why }) if at == line && why == cause,
    )
}

#[test]
fn a_bad_line_has_its_first_cause(rt: HostRuntime) -> Result<(), Fail> {
    for (line, cause) in &LINES {
        let mut text = Vec::new(rt.alloc());
        text.extend_from_slice(b"complex 1 1 2\n1 begin known\n")?;
        text.extend_from_slice(line)?;
        assert!(rt; is_bad(&rt, &text, 3, *cause), "{line:?}");
    }
    for (text, cause) in &FIRST {
        assert!(rt; is_bad(&rt, text, 1, *cause), "{text:?}");
    }
    Ok(())
}

fn is_read(rt: &(impl AllocGlobal + Abort), text: &[u8]) -> bool {
    matches!(Script::read(rt.alloc(), text, Kind::Replay), Ok(_))
}

#[test]
fn words_may_stand_apart(rt: HostRuntime) -> Result<(), Fail> {
    for line in &GOOD {
        let mut text = Vec::new(rt.alloc());
        text.extend_from_slice(b"  complex 1   1 2 \n1 begin  known\n")?;
        text.extend_from_slice(line)?;
        assert!(rt; is_read(&rt, &text), "{line:?}");
    }
    Ok(())
}

/// Texts of blank lines and comments alone, or of none, and the line behind their last.
static IDLE: [(&[u8], u32); 8] = [
    (b"", 1),
    (b"\n", 2),
    (b"#", 2),
    (b"# c\n", 2),
    (b"# c\n\n", 3),
    (b"   \n# c", 3),
    (b"# complex 1 1 2\n#\n  \n", 4),
    (b"\n\n\n\n#", 6),
];

#[test]
fn a_text_without_a_line_to_read_is_bad_behind_its_last(rt: HostRuntime) -> Result<(), Fail> {
    for (text, behind) in &IDLE {
        assert!(rt; is_bad(&rt, text, *behind, LineError::Order), "{text:?}");
    }
    Ok(())
}

fn has_numbers(rt: &(impl AllocGlobal + Abort), text: &[u8]) -> bool {
    match Script::read(rt.alloc(), text, Kind::Replay) {
        Ok(script) => matches!(
            script.lines(),
            [first, second, third] if first.number == 4 && second.number == 6 && third.number == 9,
        ),
        Err(_) => false,
    }
}

#[test]
fn lines_that_are_passed_over_are_counted(rt: HostRuntime) -> Result<(), Fail> {
    let text =
        b"# c\n\n   \ncomplex 1 1 2\n#\n1 begin a\n\n#1 begin a\n  table  \n# table\n".as_slice();
    assert!(rt; has_numbers(&rt, text));
    Ok(())
}

#[test]
fn comments_keep_the_limits(rt: HostRuntime) -> Result<(), Fail> {
    let mut text = Vec::new(rt.alloc());
    text.extend_from_slice(b"complex 1 1 2\n#")?;
    for _ in 0..1_023 {
        text.push(b'c')?;
    }
    assert!(rt; is_read(&rt, &text));
    text.push(b'\x80')?;
    assert!(rt; is_bad(&rt, &text, 2, LineError::Size));
    let mut lines = Vec::new(rt.alloc());
    lines.extend_from_slice(b"complex 1 1 2\n")?;
    for _ in 0..99_999 {
        lines.extend_from_slice(b"#\n")?;
    }
    assert!(rt; is_read(&rt, &lines));
    lines.push(b'#')?;
    assert!(rt; is_bad(&rt, &lines, 100_001, LineError::Size));
    Ok(())
}

#[test]
fn a_value_may_be_longer_than_a_record(rt: HostRuntime) -> Result<(), Fail> {
    let mut text = Vec::new(rt.alloc());
    text.extend_from_slice(b"complex 1 1 2\n1 begin known\ninsert known 0 ")?;
    for _ in 0..257 {
        text.push(b'v')?;
    }
    assert!(rt; is_read(&rt, &text));
    Ok(())
}

#[test]
fn size_is_told_before_a_byte(rt: HostRuntime) -> Result<(), Fail> {
    let mut text = Vec::new(rt.alloc());
    text.extend_from_slice(b"complex 1 1 2\n")?;
    for _ in 0..1_025 {
        text.push(b'\x80')?;
    }
    assert!(rt; is_bad(&rt, &text, 2, LineError::Size));
    let mut tables = Vec::new(rt.alloc());
    tables.extend_from_slice(b"complex 1 1 2\n")?;
    for _ in 0..64 {
        tables.extend_from_slice(b"table\n")?;
    }
    tables.extend_from_slice(b"  table  ")?;
    assert!(rt; is_bad(&rt, &tables, 66, LineError::Size));
    tables.push(b'\t')?;
    assert!(rt; is_bad(&rt, &tables, 66, LineError::Byte));
    Ok(())
}
