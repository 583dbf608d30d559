ghost use Rattle.std.specs.Prelude.{◌≡◌, ◌≢◌, ◌≤◌, ⊤, codes, Err, None};
ghost use Rattle.cm_outside.specs.Faults.{Rose};

use cm_outside::{
    Clock, Leaves, MemClock, MemSink, MemSource, MemStore, Piece, Status, Store, StoreFault,
};
use cm_plain::Str;
use key_run::{AnswersKeys, run_keys};
use std::alloc::{AllocError, Global};
use std::test::Fail;
use term_keys::Key;

/// Answers each key by the same frame, and saves a file at Save. It tells nothing of what it is.
#[derive(Drop)]
struct Same {
    alloc: Global,
}

impl Same {
    fn save(&self, store: &mut MemStore) -> Result<(), StoreFault>
        ensures later { store.old.faults ≤ store.new.faults }
        ensures cause { result ≡ Err StoreFault.Failed → Rose store.old.faults store.new.faults }
    {
        match Str::of_text(self.alloc, "f") {
            Ok(name) => store.save(&name, b"x"),
            Err(_) => Err(StoreFault::NoMemory),
        }
    }

    fn frame(&self) -> Result<String, StoreFault>
        ensures { result ≢ Err StoreFault.Failed }
    {
        match String::from_str(self.alloc, "-") {
            Ok(frame) => Ok(frame),
            Err(_) => Err(StoreFault::NoMemory),
        }
    }
}

impl AnswersKeys<(), MemStore> for Same {
    ghost Plain = { ⊤ };

    ghost told = { λ a store. None };

    ghost machine = { λ with. record { after = λ key time p. p; saved = λ key time p. p; frame = λ p. codes "-" } };

    ghost faults = { λ store. store.faults };

    ghost can_lend = { λ with. Unit {0} };

    fn first_frame(&mut self, _with: &(), _store: &MemStore) -> Result<String, AllocError> {
        String::from_str(self.alloc, "-")
    }

    fn answer_key(
        &mut self,
        _with: &(),
        key: Key,
        _time: i64,
        store: &mut MemStore,
    ) -> Result<String, StoreFault> {
        if key == Key::Save {
            match self.save(store) {
                Ok(()) => {}
                Err(fault) => return Err(fault),
            }
        }
        self.frame()
    }
}

/// A run: its limit, its bytes, which are given one at once, and the numbers of the reads, writes and saves that fail.
#[derive(Clone, Copy)]
struct Case<'a> {
    limit: u64,
    bytes: &'a [u8],
    reads: &'a [u64],
    writes: &'a [u64],
    saves: &'a [u64],
}

/// A run without faults.
fn whole(limit: u64, bytes: &[u8]) -> Case<'_> {
    Case {
        limit,
        bytes,
        reads: &[],
        writes: &[],
        saves: &[],
    }
}

fn source(alloc: Global, case: &Case<'_>) -> Result<MemSource, AllocError> {
    Ok(MemSource::new(
        Vec::from_slice(alloc, case.bytes)?,
        Piece::byte(),
        Vec::from_slice(alloc, case.reads)?,
    ))
}

/// How a run ends whose clock answers 5, 6, 7 and 8, and what the clock answers next.
fn over(
    alloc: Global,
    case: &Case<'_>,
    source: &mut MemSource,
    sink: &mut MemSink,
) -> Result<(Status, i64), AllocError> {
    let mut store = MemStore::new(alloc, Vec::from_slice(alloc, case.saves)?, Leaves::AsBefore);
    let mut clock = MemClock::new(Vec::from_slice(alloc, &[5, 6, 7, 8])?);
    let mut same = Same { alloc };
    let status = run_keys(
        alloc,
        &(),
        &mut same,
        &mut store,
        case.limit,
        source,
        sink,
        &mut clock,
    );
    Ok((status, clock.now()))
}

/// Whether a run ends so, writes this into a sink with room for nine bytes, and leaves a clock that answers this next.
fn ends(alloc: Global, case: &Case<'_>, want: (Status, &[u8], i64)) -> Result<bool, AllocError> {
    let mut source = source(alloc, case)?;
    let mut sink = MemSink::new(alloc, 9, Vec::from_slice(alloc, case.writes)?)?;
    let (status, next) = over(alloc, case, &mut source, &mut sink)?;
    Ok(status == want.0 && sink.bytes() == want.1 && next == want.2)
}

#[test]
fn each_key_has_a_frame_up_to_quit(rt: HostRuntime) -> Result<(), Fail> {
    let cases = [
        (b"".as_slice(), b"-".as_slice(), 5),
        (b"ab".as_slice(), b"---".as_slice(), 7),
        (b"\x1b[A\x1b".as_slice(), b"--".as_slice(), 6),
        (b"a\x11b".as_slice(), b"--".as_slice(), 7),
        (b"a\x13".as_slice(), b"---".as_slice(), 7),
    ];
    for (bytes, want, next) in cases {
        assert!(rt; ends(rt.alloc(), &whole(10, bytes), (Status::Ok, want, next))?);
    }
    Ok(())
}

#[test]
fn a_byte_past_the_limit_is_too_much_unless_quit_came(rt: HostRuntime) -> Result<(), Fail> {
    let cases = [
        (b"ab".as_slice(), Status::TooMuch, b"--".as_slice(), 6),
        (b"a\x11".as_slice(), Status::TooMuch, b"--".as_slice(), 6),
        (b"\x11a".as_slice(), Status::Ok, b"-".as_slice(), 6),
        (b"a".as_slice(), Status::Ok, b"--".as_slice(), 6),
    ];
    for (bytes, status, want, next) in cases {
        assert!(rt; ends(rt.alloc(), &whole(1, bytes), (status, want, next))?);
    }
    Ok(())
}

#[test]
fn a_run_over_keys_stops_at_faults(rt: HostRuntime) -> Result<(), Fail> {
    let case = whole(10, b"a\x13");
    let cases = [
        (
            Case {
                reads: &[1],
                ..case
            },
            Status::ReadFault,
            b"--".as_slice(),
            6,
        ),
        (
            Case {
                writes: &[0],
                ..case
            },
            Status::WriteFault,
            b"".as_slice(),
            5,
        ),
        (
            Case {
                writes: &[1],
                ..case
            },
            Status::WriteFault,
            b"-".as_slice(),
            6,
        ),
        (
            Case {
                saves: &[0],
                ..case
            },
            Status::StoreFault,
            b"--".as_slice(),
            7,
        ),
    ];
    for (case, status, want, next) in cases {
        assert!(rt; ends(rt.alloc(), &case, (status, want, next))?);
    }
    Ok(())
}
