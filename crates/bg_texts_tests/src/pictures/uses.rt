//! The lines of use that stand in the library's documentation, run (`tools/checks/check_uses`
//! compares them).
use bg_match::{Record, Rules};
use bg_picture::{Numbering, PageWords, page_text, picture_text};
use std::process::Abort;
use std::test::Fail;

fn check_pictures_and_pages(rt: &(impl AllocGlobal + Abort)) -> Result<(), Fail> {
    let alloc = rt.alloc();
    // bg_picture
    let record = Record::new(alloc, 1, 5, Rules::One)?;
    let picture = picture_text(alloc, &record.standing(), Numbering::Mover)?;
    assert!(rt; picture.starts_with(b"<svg "));
    let words = PageWords {
        title: "Anna & Otto",
        x: "Anna",
        o: "Otto",
    };
    let page = page_text(alloc, &record, words, Numbering::Mover, 0)?;
    assert!(rt; page.starts_with(b"<!DOCTYPE html>"));
    // end
    Ok(())
}

#[test]
fn pictures_and_pages(rt: HostRuntime) -> Result<(), Fail> {
    check_pictures_and_pages(&rt)
}
