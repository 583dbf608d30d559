use std::test::Fail;
use viewport::{SizeError, Viewport};

/// The top and the left of a window of this size after it has shown some places in turn, each a block, a column and a
/// width.
fn shown(rows: u32, cols: u32, places: &[(u128, u128, u32)]) -> Option<(u128, u128)> {
    let mut window = match Viewport::new(rows, cols) {
        Ok(window) => window,
        Err(_) => return None,
    };
    for (block, col, width) in places {
        if *width == 0 || *width > window.cols() {
            return None;
        }
        window.reveal(*block, *col, *width);
    }
    let same = window.copy();
    if (same.rows(), same.cols()) != (rows, cols) {
        return None;
    }
    Some((same.top(), same.left()))
}

/// The refusal of a size.
fn refused(rows: u32, cols: u32) -> Option<SizeError> {
    Viewport::new(rows, cols).err()
}

#[test]
fn moves_as_little_as_it_takes(rt: HostRuntime) -> Result<(), Fail> {
    assert!(rt; shown(3, 5, &[(3, 4, 1)]) == Some((1, 0)));
    assert!(rt; shown(3, 5, &[(4, 4, 2)]) == Some((2, 1)));
    assert!(rt; shown(3, 5, &[(9, 20, 1), (8, 17, 1), (1, 0, 1)]) == Some((1, 0)));
    assert!(rt; shown(3, 5, &[(9, 20, 1), (8, 17, 1)]) == Some((7, 16)));
    Ok(())
}

#[test]
fn refuses_sizes(rt: HostRuntime) -> Result<(), Fail> {
    assert!(rt; refused(0, 501) == Some(SizeError::BadRows { n: 0 }));
    assert!(rt; refused(500, 501) == Some(SizeError::BadCols { n: 501 }));
    assert!(rt; refused(500, 500) == None);
    Ok(())
}
