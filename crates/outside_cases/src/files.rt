use cm_outside::{Clock, Leaves, MemClock, MemStore, Store, StoreFault};
use cm_plain::Str;
use std::alloc::{AllocError, Global};
use std::test::Fail;

/// Whether a load of a file gives these bytes, or that there is none.
fn is_loaded(
    alloc: Global,
    store: &mut MemStore,
    name: &str,
    want: Option<&[u8]>,
) -> Result<bool, AllocError> {
    let name = Str::of_text(alloc, name)?;
    Ok(match store.load(&name) {
        Ok(Some(bytes)) => Some(bytes.as_slice()) == want,
        Ok(None) => want.is_none(),
        Err(_) => false,
    })
}

/// How a save of a file ends.
fn saved(
    alloc: Global,
    store: &mut MemStore,
    name: &str,
    bytes: &[u8],
) -> Result<Result<(), StoreFault>, AllocError> {
    let name = Str::of_text(alloc, name)?;
    Ok(store.save(&name, bytes))
}

/// A store of one file `f` with the bytes `x`, whose call of number 1 fails.
fn with_failing_save(alloc: Global, leaves: Leaves) -> Result<MemStore, AllocError> {
    let failing = vec![in alloc; 1]?;
    let mut store = MemStore::new(alloc, failing, leaves);
    let _ = saved(alloc, &mut store, "f", b"x")?;
    Ok(store)
}

#[test]
fn a_save_replaces_one_file_whole(rt: HostRuntime) -> Result<(), Fail> {
    let alloc = rt.alloc();
    let mut store = MemStore::new(alloc, Vec::new(alloc), Leaves::AsBefore);
    assert!(rt; is_loaded(alloc, &mut store, "f", None)?);
    assert_eq!(rt; saved(alloc, &mut store, "f", b"long")?, Ok(()));
    assert_eq!(rt; saved(alloc, &mut store, "g", b"")?, Ok(()));
    assert_eq!(rt; saved(alloc, &mut store, "f", b"c")?, Ok(()));
    assert!(rt; is_loaded(alloc, &mut store, "f", Some(b"c".as_slice()))?);
    assert!(rt; is_loaded(alloc, &mut store, "g", Some(b"".as_slice()))?);
    assert!(rt; is_loaded(alloc, &mut store, "h", None)?);
    Ok(())
}

#[test]
fn a_failed_save_leaves_what_was_chosen(rt: HostRuntime) -> Result<(), Fail> {
    let alloc = rt.alloc();
    let mut store = with_failing_save(alloc, Leaves::AsBefore)?;
    assert_eq!(rt;
        saved(alloc, &mut store, "f", b"y")?,
        Err(StoreFault::Failed)
    );
    assert!(rt; is_loaded(alloc, &mut store, "f", Some(b"x".as_slice()))?);
    let mut store = with_failing_save(alloc, Leaves::AsAsked)?;
    assert_eq!(rt;
        saved(alloc, &mut store, "f", b"y")?,
        Err(StoreFault::Failed)
    );
    assert!(rt; is_loaded(alloc, &mut store, "f", Some(b"y".as_slice()))?);
    Ok(())
}

#[test]
fn a_clock_answers_its_times_and_then_the_last(rt: HostRuntime) -> Result<(), Fail> {
    let alloc = rt.alloc();
    let mut clock = MemClock::new(vec![in alloc; 5, 7]?);
    let times = [clock.now(), clock.now(), clock.now(), clock.now()];
    assert_eq!(rt; times, [5, 7, 7, 7]);
    let mut none = MemClock::new(Vec::new(alloc));
    assert_eq!(rt; none.now(), 0);
    Ok(())
}
