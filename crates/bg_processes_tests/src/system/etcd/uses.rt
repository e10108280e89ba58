//! The lines of use that stand in the documentation of the library, run (`tools/checks/check_uses`
//! compares them).
use bg_etcd::{Changes, transaction_text};
use std::test::Fail;

#[test]
fn transactions(rt: HostRuntime) -> Result<(), Fail> {
    let alloc = rt.alloc();
    // bg_etcd
    let changes = Changes::new(alloc, "ab12", 7)?;
    let text = transaction_text(alloc, &[changes])?;
    assert!(rt; text.as_str().starts_with("{\"compare\":["));
    assert!(rt; text.as_str().contains("\"mod_revision\":\"8\""));
    // end
    Ok(())
}
