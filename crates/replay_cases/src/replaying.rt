ghost use Rattle.std.specs.Prelude.{⊤};

use cm_outside::{Leaves, MemSink, MemSource, MemStore, Piece, Status};
use session::{LIMIT, replay};
use shipped_kit::{KitUser, lend_kit};
use shipped_rules::Shipped;
use std::alloc::{AllocError, Global};
use values::Kit;

/// A source of these bytes, in pieces of at most so many, of which the calls of these numbers fail.
pub(crate) fn source(
    alloc: Global,
    bytes: &[u8],
    piece: usize,
    failing: &[u64],
) -> Result<MemSource, AllocError> {
    let piece = match Piece::of(piece) {
        Some(piece) => piece,
        None => Piece::byte(),
    };
    Ok(MemSource::new(
        Vec::from_slice(alloc, bytes)?,
        piece,
        Vec::from_slice(alloc, failing)?,
    ))
}

/// A sink with room for 10,000 bytes, of which the calls of these numbers fail.
pub(crate) fn sink(alloc: Global, failing: &[u64]) -> Result<MemSink, AllocError> {
    MemSink::new(alloc, 10_000, Vec::from_slice(alloc, failing)?)
}

/// A store without files, of which the calls of these numbers fail and leave the file as before.
pub(crate) fn store(alloc: Global, failing: &[u64]) -> Result<MemStore, AllocError> {
    Ok(MemStore::new(alloc, Vec::from_slice(alloc, failing)?, Leaves::AsBefore))
}

/// What a run over lines needs beside the kit.
#[derive(Drop)]
struct Replay<'a> {
    limit: u64,
    source: &'a mut MemSource,
    sink: &'a mut MemSink,
    store: &'a mut MemStore,
}

impl<'a> KitUser for Replay<'a> {
    type Answer = Status;

    ghost gives = { λ before answer after. ⊤ };

    fn use_kit(&mut self, alloc: Global, kit: &Kit<Shipped>) -> Status {
        replay(alloc, kit, self.limit, self.source, self.sink, self.store)
    }
}

/// How a run by the shipped rules ends.
pub(crate) fn replayed(
    alloc: Global,
    limit: u64,
    source: &mut MemSource,
    sink: &mut MemSink,
    store: &mut MemStore,
) -> Result<Status, AllocError> {
    let mut replay = Replay {
        limit,
        source,
        sink,
        store,
    };
    lend_kit(alloc, &mut replay)
}

/// Whether a run over these lines ends `Ok` and writes exactly these replies.
pub(crate) fn replies(alloc: Global, lines: &[u8], want: &[u8]) -> Result<bool, AllocError> {
    let mut source = source(alloc, lines, 1_000, &[])?;
    let mut sink = sink(alloc, &[])?;
    let mut store = store(alloc, &[])?;
    let status = replayed(alloc, LIMIT, &mut source, &mut sink, &mut store)?;
    Ok(status == Status::Ok && sink.bytes() == want)
}

/// The bytes of the first text, and then those of the second.
pub(crate) fn joined(alloc: Global, first: &str, second: &str) -> Result<Vec<u8>, AllocError> {
    let mut bytes = Vec::from_slice(alloc, first.as_bytes())?;
    bytes.extend_from_slice(second.as_bytes())?;
    Ok(bytes)
}
