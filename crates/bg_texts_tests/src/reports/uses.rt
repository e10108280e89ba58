//! The lines of use that stand in the library's documentation, run (`tools/checks/check_uses`
//! compares them).
use bg_reports::{DONE, Ending, REFUSED, check_text, show_text};
use std::process::Abort;
use std::test::Fail;

fn check_reports(rt: &(impl AllocGlobal + Abort)) -> Result<(), Fail> {
    let alloc = rt.alloc();
    // bg_reports
    let (text, verdict) = check_text(alloc, "a.txt", b"length 1\nopen 3 1\n", None)?;
    assert!(rt; text.as_slice() == b"a.txt: ok 1, not over\n".as_slice());
    assert!(rt; Ending::Judged(verdict).status() == DONE);
    let (text, loads) = show_text(alloc, b"", b"BGS0")?;
    assert!(rt; text.as_slice() == b"file 0: short\nfile 1: bad magic\n".as_slice());
    assert!(rt; Ending::Shown { loads }.status() == REFUSED);
    // end
    Ok(())
}

#[test]
fn reports(rt: HostRuntime) -> Result<(), Fail> {
    check_reports(&rt)
}
