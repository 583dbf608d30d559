use listed::Listed;
use std::alloc::{AllocError, Global};
use std::test::Fail;

fn is(list: &Listed<u32>, want: &[u32]) -> bool {
    list.as_slice() == want
}

/// A list of some numbers and one more.
fn grown(alloc: Global, numbers: &[u32], last: u32) -> Result<Listed<u32>, AllocError> {
    let mut list = Listed::new(Vec::from_slice(alloc, numbers)?);
    list.push(last)?;
    Ok(list)
}

#[test]
fn a_list_is_made_and_grows(rt: HostRuntime) -> Result<(), Fail> {
    let list = grown(rt.alloc(), &[1, 2], 3)?;
    assert!(rt; is(&list, &[1, 2, 3]));
    assert!(rt; list.into_vec().as_slice() == [1, 2, 3].as_slice());
    Ok(())
}

#[test]
fn an_empty_list_has_no_items(rt: HostRuntime) {
    assert!(rt; is(&Listed::empty(rt.alloc()), &[]));
}
