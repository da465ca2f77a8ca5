//! An image by hand, byte for byte, and bytes from outside.

use sd_base::PageNo;
use sd_page::{Image, Op};
use std::test::Fail;

#[test]
fn these_bytes_are_an_image_and_their_neighbours_are_not(rt: HostRuntime) -> Result<(), Fail> {
    let alloc = rt.alloc();
    let page = PageNo::new(0).ok_or("page 0")?;
    let mut image = Image::empty(page);
    let insert = Op {
        slot: 0,
        capacity: 4,
        after: Some(b"red".as_slice()),
    };
    assert!(rt; image.apply(&insert, 2).is_ok());
    let front = [
        0, 0, 0, 0, 0, 0, 0, 2, 0, 0, 0, 0, 0, 1, 0, 0x14, 0x72, 0x65, 0x64, 0,
    ];
    assert_eq!(rt; &image.bytes()[..20], front.as_slice());
    let back = [0, 0, 0x10, 0, 4, 0, 3];
    assert_eq!(rt; &image.bytes()[1017..], back.as_slice());
    // The byte whose last bit turns, and whether an image is left.
    let turned = [
        (7, true, "another LSN"),
        (15, false, "another heap end"),
        (19, false, "a byte behind the value"),
        (500, false, "a byte of the gap"),
        (1021, false, "a capacity of 5"),
        (1022, false, "a length of 259"),
    ];
    for (at, is_image, what) in turned {
        let mut bytes = image.bytes().to_vec(alloc)?;
        if let Some(byte) = bytes.get_mut(at) {
            *byte ^= 1;
        }
        assert_eq!(rt; Image::check(&bytes, page).is_some(), is_image, "{what}");
    }
    Ok(())
}
