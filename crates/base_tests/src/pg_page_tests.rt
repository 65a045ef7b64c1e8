//! A page that is made, against the bytes of its image that an independent implementation of the
//! formats wrote.

use pg_page::{Page, lsn_of, make_page, restored_page, set_lsn, zero_hole, zero_page};
use std::test::Fail;
use test_areas::ARCHIVE;

#[test]
fn a_page_is_made_as_its_image_says(rt: HostRuntime) -> Result<(), Fail> {
    let restored = restored_page(rt.alloc(), 32, &ARCHIVE[0xc1..0x101])?;
    let page = make_page(rt.alloc(), 32, 8160, 65)?.ok_or("the places are good")?;
    assert!(rt; *page.bytes() == *restored);
    assert!(rt; page.hole() == Some((32, 8160)));
    assert!(rt; Page::read(restored).is_some());
    assert!(rt; *restored_page(rt.alloc(), 0, b"")? == zero_page());
    Ok(())
}

#[test]
fn a_page_has_its_position(rt: HostRuntime) -> Result<(), Fail> {
    let made = make_page(rt.alloc(), 32, 8160, 65)?.ok_or("the places are good")?;
    let mut page = *made.bytes();
    zero_hole(&mut page);
    assert!(rt; page == *made.bytes());
    set_lsn(&mut page, 0x1_0000_0108);
    assert!(rt; page.starts_with(b"\x01\0\0\0\x08\x01\0\0\0"));
    assert!(rt; (lsn_of(&page), made.lsn()) == (0x1_0000_0108, 0));
    Ok(())
}
