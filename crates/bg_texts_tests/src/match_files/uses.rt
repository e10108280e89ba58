//! The lines of use that stand in the library's documentation, run (`tools/checks/check_uses`
//! compares them).
use bg_mat::{export_mat, import_mat};
use bg_match::Rules;
use std::process::Abort;
use std::test::Fail;

fn check_match_files(rt: &(impl AllocGlobal + Abort)) -> Result<(), Fail> {
    let alloc = rt.alloc();
    // bg_mat
    let file = b" 1 point match\n\n Game 1\n A : 0   B : 0\n 1) 31: 8/5 6/5\n";
    let imported = import_mat(alloc, 1, Rules::One, file)?;
    assert!(rt; imported.record.len() == 2);
    assert!(rt; imported.lines.as_slice() == [5, 5].as_slice());
    let text = export_mat(alloc, &imported.record)?;
    assert!(rt; text.starts_with(b" 1 point match\n\n Game 1\n X : 0 "));
    // end
    Ok(())
}

#[test]
fn match_files(rt: HostRuntime) -> Result<(), Fail> {
    check_match_files(&rt)
}
