ghost use Rattle.std.specs.Prelude.{◌≡◌, codes, IfOk, Some, ⊤, string_bytes};

use cm_outside::{MemSink, MemSource, Piece, Status, StoreFault};
use line_run::{Answers, run_lines};
use std::alloc::{AllocError, Global};
use std::test::Fail;

/// Answers each line by the same text.
#[derive(Drop)]
struct Same {
    alloc: Global,
}

impl Same {
    fn reply(&self) -> Result<String, AllocError>
        ensures { IfOk result (λ r. string_bytes r ≡ codes "ok\n") }
    {
        String::from_str(self.alloc, "ok\n")
    }
}

impl Answers<(), ()> for Same {
    ghost Plain = { ⊤ };

    ghost told = { λ a store. Some tt };

    ghost machine = { record { after = λ line p. p; reply = λ line p. codes "ok\n"; saved = λ line p. p } };

    ghost faults = { λ store. 0 };

    ghost can_lend = { λ with. Unit {0} };

    fn answer(&mut self, _with: &(), _line: &[u8], _store: &mut ()) -> Result<String, StoreFault> {
        match self.reply() {
            Ok(reply) => Ok(reply),
            Err(_) => Err(StoreFault::NoMemory),
        }
    }

    fn answer_long(&mut self, _store: &()) -> Result<String, AllocError> {
        self.reply()
    }
}

/// A source of these bytes, one at once, of which the calls of these numbers fail.
fn source(alloc: Global, bytes: &[u8], failing: &[u64]) -> Result<MemSource, AllocError> {
    Ok(MemSource::new(
        Vec::from_slice(alloc, bytes)?,
        Piece::byte(),
        Vec::from_slice(alloc, failing)?,
    ))
}

/// A sink with room for nine bytes, of which the calls of these numbers fail.
fn sink(alloc: Global, failing: &[u64]) -> Result<MemSink, AllocError> {
    MemSink::new(alloc, 9, Vec::from_slice(alloc, failing)?)
}

/// Whether a run over this input ends so and writes this.
fn ends(
    alloc: Global,
    limit: u64,
    input: (&[u8], &[u64]),
    failing_writes: &[u64],
    want: (Status, &[u8]),
) -> Result<bool, AllocError> {
    let mut source = source(alloc, input.0, input.1)?;
    let mut sink = sink(alloc, failing_writes)?;
    let mut same = Same { alloc };
    let status = run_lines(
        alloc,
        &(),
        &mut same,
        &mut (),
        limit,
        &mut source,
        &mut sink,
    );
    Ok(status == want.0 && sink.bytes() == want.1)
}

#[test]
fn each_line_is_answered(rt: HostRuntime) -> Result<(), Fail> {
    let cases = [
        (b"".as_slice(), b"".as_slice()),
        (b"\n".as_slice(), b"ok\n".as_slice()),
        (b"a\n\nb".as_slice(), b"ok\nok\nok\n".as_slice()),
        (b"a\nb\n".as_slice(), b"ok\nok\n".as_slice()),
    ];
    for (input, want) in cases {
        assert!(rt; ends(rt.alloc(), 10, (input, &[]), &[], (Status::Ok, want))?);
    }
    Ok(())
}

#[test]
fn a_run_stops_at_faults_and_at_its_limit(rt: HostRuntime) -> Result<(), Fail> {
    let lines = b"a\nb\n".as_slice();
    assert!(rt;
        ends(
            rt.alloc(),
            10,
            (lines, &[2]),
            &[],
            (Status::ReadFault, b"ok\n")
        )?
    );
    assert!(rt;
        ends(
            rt.alloc(),
            10,
            (lines, &[]),
            &[1],
            (Status::WriteFault, b"ok\n")
        )?
    );
    assert!(rt; ends(rt.alloc(), 3, (lines, &[]), &[], (Status::TooMuch, b"ok\n"))?);
    Ok(())
}

#[test]
fn a_run_stops_where_the_sink_is_full(rt: HostRuntime) -> Result<(), Fail> {
    let lines = b"a\nb\nc\nd\n".as_slice();
    assert!(rt;
        ends(
            rt.alloc(),
            10,
            (lines, &[]),
            &[],
            (Status::WriteFault, b"ok\nok\nok\n")
        )?
    );
    Ok(())
}
