// Editing a file by keys.
ghost use Rattle.std.specs.Prelude.{⊤};

use crate::replaying::{sink, source, store};
use cm_outside::{MemClock, MemSink, MemSource, MemStore, Status};
use cm_plain::Str;
use session::edit;
use shipped_kit::{KitUser, lend_kit};
use shipped_rules::Shipped;
use std::alloc::{AllocError, Global};
use std::test::Fail;
use values::Kit;

/// What a run of `edit` in a window of 1 row and 5 columns needs beside the kit.
#[derive(Drop)]
struct Edit<'a> {
    file: &'a Str,
    limit: u64,
    source: &'a mut MemSource,
    sink: &'a mut MemSink,
    store: &'a mut MemStore,
    clock: &'a mut MemClock,
}

impl<'a> KitUser for Edit<'a> {
    type Answer = Status;

    ghost gives = { λ before answer after. ⊤ };

    fn use_kit(&mut self, alloc: Global, kit: &Kit<Shipped>) -> Status {
        edit(
            alloc,
            kit,
            self.limit,
            self.file,
            1,
            5,
            self.source,
            self.sink,
            self.store,
            self.clock,
        )
    }
}

/// A run over a file `f`, if there is one, with one byte a read, in which the reads and the store calls of these numbers fail, both
/// from 0.
#[derive(Clone, Copy)]
struct Case {
    file: Option<&'static [u8]>,
    keys: &'static [u8],
    limit: u64,
    failing_reads: &'static [u64],
    failing_store: &'static [u64],
    times: &'static [u32],
}

/// No file, without a failing call and with a clock that stands still.
const PLAIN: Case = Case {
    file: None,
    keys: b"hi\x13\x11",
    limit: 100,
    failing_reads: &[],
    failing_store: &[],
    times: &[0],
};

/// How the run of a case ends.
fn edited(
    alloc: Global,
    case: &Case,
    name: &Str,
    sink: &mut MemSink,
    store: &mut MemStore,
) -> Result<Status, AllocError> {
    let mut source = source(alloc, case.keys, 1, case.failing_reads)?;
    let mut clock = MemClock::new(Vec::from_slice(alloc, case.times)?);
    let mut edit = Edit {
        file: name,
        limit: case.limit,
        source: &mut source,
        sink,
        store,
        clock: &mut clock,
    };
    lend_kit(alloc, &mut edit)
}

/// Whether a case ends so and writes this, and the file `f` has these bytes then, if there is one.
fn ends(
    alloc: Global,
    case: &Case,
    want: (Status, &str),
    saved: Option<&[u8]>,
) -> Result<bool, AllocError> {
    let name = Str::of_text(alloc, "f")?;
    let mut sink = sink(alloc, &[])?;
    let mut store = store(alloc, case.failing_store)?;
    if let Some(bytes) = case.file {
        store.put(&name, bytes)?;
    }
    let status = edited(alloc, case, &name, &mut sink, &mut store)?;
    Ok(status == want.0 && sink.bytes() == want.1.as_bytes() && store.bytes(&name) == saved)
}

/// The frames of an empty document, of `h` and of `hi`.
const THREE: &str =
    "\x1b[H\x1b[1;1H\x1b[K\x1b[1;1H\x1b[H\x1b[1;1Hh\x1b[K\x1b[1;2H\x1b[H\x1b[1;1Hhi\x1b[K\x1b[1;3H";

/// The same, and that of `hi` once more.
const FOUR: &str =
    "\x1b[H\x1b[1;1H\x1b[K\x1b[1;1H\x1b[H\x1b[1;1Hh\x1b[K\x1b[1;2H\x1b[H\x1b[1;1Hhi\x1b[K\x1b[1;3H\x1b[H\x1b[1;1Hhi\x1b[K\x1b[1;3H";

#[test]
fn a_new_file_is_typed_and_saved(rt: HostRuntime) -> Result<(), Fail> {
    let alloc = rt.alloc();
    assert!(rt; ends(alloc, &PLAIN, (Status::Ok, FOUR), Some(b"hi"))?);
    let unsaved = Case {
        keys: b"hi\x11x",
        ..PLAIN
    };
    assert!(rt; ends(alloc, &unsaved, (Status::Ok, THREE), None)?);
    Ok(())
}

/// Twice the frame of an empty document.
const TWO_EMPTY: &str = "\x1b[H\x1b[1;1H\x1b[K\x1b[1;1H\x1b[H\x1b[1;1H\x1b[K\x1b[1;1H";

#[test]
fn a_refused_key_gives_its_frame(rt: HostRuntime) -> Result<(), Fail> {
    let nothing_to_undo = Case {
        keys: b"\x1a\x11",
        ..PLAIN
    };
    assert!(rt; ends(rt.alloc(), &nothing_to_undo, (Status::Ok, TWO_EMPTY), None)?);
    Ok(())
}

/// Twice the frame of two lines, of which the window shows `x`.
const TWO_OF_X: &str = "\x1b[H\x1b[1;1Hx\x1b[K\x1b[1;1H\x1b[H\x1b[1;1Hx\x1b[K\x1b[1;1H";

#[test]
fn a_file_is_cut_into_lines_and_saved(rt: HostRuntime) -> Result<(), Fail> {
    let alloc = rt.alloc();
    let there = Case {
        file: Some(b"x\r\ny"),
        keys: b"\x13\x11",
        ..PLAIN
    };
    assert!(rt; ends(alloc, &there, (Status::Ok, TWO_OF_X), Some(b"x\ny"))?);
    Ok(())
}

#[test]
fn what_is_no_text_is_refused(rt: HostRuntime) -> Result<(), Fail> {
    let alloc = rt.alloc();
    let bad = Case {
        file: Some(b"\xff"),
        ..PLAIN
    };
    assert!(rt; ends(alloc, &bad, (Status::BadFile, ""), Some(b"\xff"))?);
    Ok(())
}

#[test]
fn a_fault_or_the_limit_ends_it(rt: HostRuntime) -> Result<(), Fail> {
    let alloc = rt.alloc();
    let read = Case {
        failing_reads: &[2],
        ..PLAIN
    };
    assert!(rt; ends(alloc, &read, (Status::ReadFault, THREE), None)?);
    let load = Case {
        failing_store: &[0],
        ..PLAIN
    };
    assert!(rt; ends(alloc, &load, (Status::StoreFault, ""), None)?);
    let save = Case {
        failing_store: &[1],
        ..PLAIN
    };
    assert!(rt; ends(alloc, &save, (Status::StoreFault, THREE), None)?);
    let long = Case { limit: 2, ..PLAIN };
    assert!(rt; ends(alloc, &long, (Status::TooMuch, THREE), None)?);
    Ok(())
}

/// The frames of an empty document, of `h` and of `hi`, and then twice that of `h`, or of an empty document.
const BACK_TO_ONE: &str =
    "\x1b[H\x1b[1;1H\x1b[K\x1b[1;1H\x1b[H\x1b[1;1Hh\x1b[K\x1b[1;2H\x1b[H\x1b[1;1Hhi\x1b[K\x1b[1;3H\x1b[H\x1b[1;1Hh\x1b[K\x1b[1;2H\x1b[H\x1b[1;1Hh\x1b[K\x1b[1;2H";

const BACK_TO_NONE: &str =
    "\x1b[H\x1b[1;1H\x1b[K\x1b[1;1H\x1b[H\x1b[1;1Hh\x1b[K\x1b[1;2H\x1b[H\x1b[1;1Hhi\x1b[K\x1b[1;3H\x1b[H\x1b[1;1H\x1b[K\x1b[1;1H\x1b[H\x1b[1;1H\x1b[K\x1b[1;1H";

#[test]
fn keys_are_grouped_by_their_times(rt: HostRuntime) -> Result<(), Fail> {
    let alloc = rt.alloc();
    let apart = Case {
        keys: b"hi\x1a\x13\x11",
        times: &[0, 600],
        ..PLAIN
    };
    assert!(rt; ends(alloc, &apart, (Status::Ok, BACK_TO_ONE), Some(b"h"))?);
    let together = Case {
        keys: b"hi\x1a\x13",
        times: &[0, 100],
        ..PLAIN
    };
    assert!(rt; ends(alloc, &together, (Status::Ok, BACK_TO_NONE), Some(b""))?);
    Ok(())
}
