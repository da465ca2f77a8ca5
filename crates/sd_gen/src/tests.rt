//! The sizes of scripts, their first lines and their last, by the rules followed elsewhere.

use crate::generate;
use std::test::Fail;

const FIRST_LINES: &[u8] = b"complex 4 4 2\n1 begin s\n\
insert s 0 100 8\ninsert s 1 100 8\ninsert s 2 100 8\ninsert s 3 100 8\n\
insert s 0 100 8\ninsert s 1 100 8\ninsert s 2 100 8\ninsert s 3 100 8\n\
insert s 0 100 8\ninsert s 1 100 8\ncommit s\n\
3 begin t1\nadd t1 1.0 -6\nadd t1 2.0 6\ncommit t1\n\
2 begin t2\nadd t2 1.2 -1\nadd t2 1.0 1\ncommit t2\n";

const LAST_LINES: &[u8] =
    b"4 begin t25\nadd t25 2.1 -9\nadd t25 3.0 9\nfail 4\nrecover 4 by 1\njoin 4\ntable\n";

#[test]
fn scripts_have_the_sizes_that_the_rules_give(rt: HostRuntime) -> Result<(), Fail> {
    assert_eq!(rt; generate(rt.alloc(), 7, 0)?.len(), 209);
    assert_eq!(rt; generate(rt.alloc(), 7, 100)?.len(), 5476);
    assert_eq!(rt; generate(rt.alloc(), 7, 2000)?.len(), 117651);
    assert_eq!(rt; generate(rt.alloc(), u64::MAX, 1)?.len(), 257);
    Ok(())
}

#[test]
fn a_script_begins_with_accounts_and_may_end_with_a_failure(rt: HostRuntime) -> Result<(), Fail> {
    let text = generate(rt.alloc(), 7, 25)?;
    assert!(rt; text.starts_with(FIRST_LINES));
    assert!(rt; text.ends_with(LAST_LINES));
    Ok(())
}
