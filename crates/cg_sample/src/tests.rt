use crate::sample_files;
use std::test::Fail;

#[test]
fn files_are_as_many_as_there_are_names(rt: HostRuntime) -> Result<(), Fail> {
    let alloc = rt.alloc();
    assert_eq!(rt; sample_files(alloc, 1)?.len(), 5);
    assert_eq!(rt; sample_files(alloc, 17)?.len(), 20);
    assert_eq!(rt; sample_files(alloc, 200)?.len(), 26);
    Ok(())
}
