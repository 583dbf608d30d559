// Made workloads.
ghost use Rattle.std.specs.Prelude.{⊤};

use crate::replaying::{sink, store};
use cm_outside::{MemSink, MemStore, Status};
use session::make;
use shipped_kit::{KitUser, lend_kit};
use shipped_rules::Shipped;
use std::alloc::{AllocError, Global};
use std::test::Fail;
use values::Kit;

/// What a made workload needs beside the kit.
#[derive(Drop)]
struct Making<'a> {
    count: u32,
    sink: &'a mut MemSink,
    store: &'a mut MemStore,
}

impl<'a> KitUser for Making<'a> {
    type Answer = Status;

    ghost gives = { λ before answer after. ⊤ };

    fn use_kit(&mut self, alloc: Global, kit: &Kit<Shipped>) -> Status {
        if self.count > 1_000_000 {
            return Status::Usage;
        }
        make(alloc, kit, self.count, self.sink, self.store)
    }
}

/// What a made workload of so many transactions writes to a sink of which the calls of these numbers fail, and its status.
fn made(alloc: Global, count: u32, failing: &[u64]) -> Result<(Status, MemSink), AllocError> {
    let mut sink = sink(alloc, failing)?;
    let mut store = store(alloc, &[0])?;
    let mut making = Making {
        count,
        sink: &mut sink,
        store: &mut store,
    };
    let status = lend_kit(alloc, &mut making)?;
    Ok((status, sink))
}

/// Whether a made workload of so many transactions ends `Ok` and writes this.
fn writes(alloc: Global, count: u32, want: &[u8]) -> Result<bool, AllocError> {
    let (status, sink) = made(alloc, count, &[])?;
    Ok(status == Status::Ok && sink.bytes() == want)
}

/// The reply for three transactions, whose text is `opqrzablmnocdef`.
const THREE: &[u8] = b"{\"ok\":{\"length\":15,\"lines\":1,\"rows\":1,\"transactions\":3}}\n";

#[test]
fn the_last_reply_alone_is_written(rt: HostRuntime) -> Result<(), Fail> {
    assert!(rt; writes(rt.alloc(), 3, THREE)?);
    Ok(())
}

/// Whether two runs over so many transactions end `Ok` and write the same.
fn is_same_twice(alloc: Global, count: u32) -> Result<bool, AllocError> {
    let (status, first) = made(alloc, count, &[])?;
    Ok(status == Status::Ok && writes(alloc, count, first.bytes())?)
}

#[test]
fn a_workload_is_the_same_in_each_run(rt: HostRuntime) -> Result<(), Fail> {
    assert!(rt; is_same_twice(rt.alloc(), 40)?);
    Ok(())
}

/// Whether the workload of three transactions writes nothing to a sink whose first call fails.
fn ends_at_a_fault(alloc: Global) -> Result<bool, AllocError> {
    let (status, sink) = made(alloc, 3, &[0])?;
    Ok(status == Status::WriteFault && sink.bytes().is_empty())
}

#[test]
fn a_failed_write_ends_the_run(rt: HostRuntime) -> Result<(), Fail> {
    assert!(rt; ends_at_a_fault(rt.alloc())?);
    Ok(())
}
