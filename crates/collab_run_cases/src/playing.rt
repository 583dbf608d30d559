use cm_outside::{MemSink, MemSource, Piece, Status};
use collab_run::collab;
use std::alloc::{AllocError, Global};

fn source(alloc: Global, bytes: &[u8]) -> Result<MemSource, AllocError> {
    Ok(MemSource::new(
        Vec::from_slice(alloc, bytes)?,
        Piece::byte(),
        Vec::new(alloc),
    ))
}

/// What a run writes over these bytes, in a sink with room for 10,000 bytes; none where it doesn't end `Ok`.
fn written(alloc: Global, bytes: &[u8]) -> Result<Option<MemSink>, AllocError> {
    let mut source = source(alloc, bytes)?;
    let mut sink = MemSink::new(alloc, 10_000, Vec::new(alloc))?;
    match collab(alloc, 1_000_000, &mut source, &mut sink) {
        Status::Ok => Ok(Some(sink)),
        _ => Ok(None),
    }
}

/// The texts, each with a line feed after it.
fn lines_of(alloc: Global, texts: &[&str]) -> Result<Vec<u8>, AllocError> {
    let mut bytes = Vec::new(alloc);
    for text in texts {
        bytes.extend_from_slice(text.as_bytes())?;
        bytes.push(b'\n')?;
    }
    Ok(bytes)
}

fn are(sink: Option<MemSink>, want: &[u8]) -> bool {
    match sink {
        Some(sink) => sink.bytes() == want,
        None => false,
    }
}

/// Whether a run over these lines ends `Ok` and writes exactly these replies.
pub(crate) fn replies(alloc: Global, lines: &[&str], want: &[&str]) -> Result<bool, AllocError> {
    let lines = lines_of(alloc, lines)?;
    let want = lines_of(alloc, want)?;
    Ok(are(written(alloc, lines.as_slice())?, want.as_slice()))
}
