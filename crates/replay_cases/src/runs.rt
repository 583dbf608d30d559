ghost use Rattle.std.specs.Prelude.{⊤};

use crate::replaying::{replayed, sink, source, store};
use cm_outside::{MemClock, MemSink, MemSource, MemStore, Status};
use session::run;
use shipped_kit::{KitUser, lend_kit};
use shipped_rules::Shipped;
use std::alloc::{AllocError, Global};
use std::test::Fail;
use values::Kit;

/// A line that starts an empty document, and the beginning of another line.
const INPUT: &[u8] = b"{\"start\":{\"doc\":\"\"}}\n{\"upd";

const START: &[u8] = b"{\"start\":{\"doc\":\"\"}}\n";

const STARTED: &[u8] = b"{\"ok\":{\"length\":0}}\n";

/// The reply to a made workload of three transactions.
const MADE: &[u8] = b"{\"ok\":{\"length\":15,\"lines\":1,\"rows\":1,\"transactions\":3}}\n";

const NO_COMMAND: &[u8] = b"{\"no\":{\"code\":\"NotCommand\",\"field\":\"start\"}}\n";

/// Whether a run over this input, in pieces as long as its first line, ends so and writes this.
fn ends(
    alloc: Global,
    limit: u64,
    input: (&[u8], &[u64]),
    failing_writes: &[u64],
    want: (Status, &[u8]),
) -> Result<bool, AllocError> {
    let mut source = source(alloc, input.0, START.len(), input.1)?;
    let mut sink = sink(alloc, failing_writes)?;
    let mut store = store(alloc, &[])?;
    let status = replayed(alloc, limit, &mut source, &mut sink, &mut store)?;
    Ok(status == want.0 && sink.bytes() == want.1)
}

#[test]
fn a_fault_ends_the_run(rt: HostRuntime) -> Result<(), Fail> {
    let alloc = rt.alloc();
    assert!(rt; ends(alloc, 100, (INPUT, &[1]), &[], (Status::ReadFault, STARTED))?);
    assert!(rt;
        ends(
            alloc,
            100,
            (INPUT, &[]),
            &[1],
            (Status::WriteFault, STARTED)
        )?
    );
    Ok(())
}

/// The replies to the line that starts a document and to a line that is no JSON.
const BOTH: &[u8] = b"{\"ok\":{\"length\":0}}\n{\"no\":{\"code\":\"NotJson\"}}\n";

#[test]
fn the_last_line_needs_no_end(rt: HostRuntime) -> Result<(), Fail> {
    assert!(rt; ends(rt.alloc(), 100, (INPUT, &[]), &[], (Status::Ok, BOTH))?);
    Ok(())
}

#[test]
fn the_limit_ends_the_run(rt: HostRuntime) -> Result<(), Fail> {
    let input = b"{\"text\":{}}\n".as_slice();
    let reply = b"{\"no\":{\"code\":\"NoSession\"}}\n".as_slice();
    assert!(rt; ends(rt.alloc(), 8, (input, &[]), &[], (Status::TooMuch, b""))?);
    assert!(rt; ends(rt.alloc(), 12, (input, &[]), &[], (Status::Ok, reply))?);
    Ok(())
}

/// What a run of the program needs beside the kit.
#[derive(Drop)]
struct Program<'a> {
    words: &'a [&'a str],
    source: &'a mut MemSource,
    sink: &'a mut MemSink,
    store: &'a mut MemStore,
    clock: &'a mut MemClock,
}

impl<'a> KitUser for Program<'a> {
    type Answer = Status;

    ghost gives = { λ before answer after. ⊤ };

    fn use_kit(&mut self, alloc: Global, kit: &Kit<Shipped>) -> Status {
        run(
            alloc,
            self.words,
            kit,
            self.source,
            self.sink,
            self.store,
            self.clock,
        )
    }
}

/// Whether the program's run over one line, with these words, ends so and writes this.
fn run_ends(alloc: Global, words: &[&str], want: (Status, &[u8])) -> Result<bool, AllocError> {
    let mut source = source(alloc, START, 100, &[])?;
    let mut sink = sink(alloc, &[])?;
    let mut store = store(alloc, &[])?;
    let mut program = Program {
        words,
        source: &mut source,
        sink: &mut sink,
        store: &mut store,
        clock: &mut MemClock::new(Vec::new(alloc)),
    };
    let status = lend_kit(alloc, &mut program)?;
    Ok(status == want.0 && sink.bytes() == want.1)
}

#[test]
fn words_choose_the_run(rt: HostRuntime) -> Result<(), Fail> {
    let alloc = rt.alloc();
    assert!(rt; run_ends(alloc, &["replay"], (Status::Ok, STARTED))?);
    assert!(rt; run_ends(alloc, &["collab"], (Status::Ok, NO_COMMAND))?);
    assert!(rt; run_ends(alloc, &["make", "3"], (Status::Ok, MADE))?);
    assert!(rt; run_ends(alloc, &[], (Status::Usage, b""))?);
    assert!(rt; run_ends(alloc, &["make"], (Status::Usage, b""))?);
    assert!(rt; run_ends(alloc, &["edit", "f", "0", "5"], (Status::Usage, b""))?);
    assert!(rt; run_ends(alloc, &["replay", "replay"], (Status::Usage, b""))?);
    Ok(())
}
