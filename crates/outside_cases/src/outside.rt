use cm_outside::{LineReader, MemSink, MemSource, Piece, Reading, write_whole};
use std::alloc::{AllocError, Global};
use std::test::Fail;

/// A source of these bytes, two at once, whose calls of these numbers fail.
fn source(alloc: Global, bytes: &[u8], failing: &[u64]) -> Result<MemSource, AllocError> {
    let piece = match Piece::of(2) {
        Some(piece) => piece,
        None => Piece::whole(),
    };
    Ok(MemSource::new(
        Vec::from_slice(alloc, bytes)?,
        piece,
        Vec::from_slice(alloc, failing)?,
    ))
}

/// What up to eight calls read, one after the other: each line with a bar, and then a letter for how the reading ended.
fn readings(alloc: Global, limit: u64, source: &mut MemSource) -> Result<Vec<u8>, AllocError> {
    let mut read = Vec::new(alloc);
    let mut reader = LineReader::new(alloc, limit)?;
    for _ in 0..8 {
        let letter = match reader.read_line(source)? {
            Reading::Line(line) => {
                read.extend_from_slice(line.as_slice())?;
                read.push(b'|')?;
                continue;
            }
            Reading::TooLong => b'L',
            Reading::End => b'E',
            Reading::Failed => b'F',
            Reading::Budget => b'B',
        };
        read.push(letter)?;
        break;
    }
    Ok(read)
}

/// Whether these readings come of a source of these bytes.
fn are_read(
    alloc: Global,
    bytes: &[u8],
    limit: u64,
    failing: &[u64],
    want: &[u8],
) -> Result<bool, AllocError> {
    let mut source = source(alloc, bytes, failing)?;
    let read = readings(alloc, limit, &mut source)?;
    Ok(read.as_slice() == want)
}

#[test]
fn lines_are_cut_at_breaks_and_at_the_end(rt: HostRuntime) -> Result<(), Fail> {
    let cases = [
        (
            b"ab\n\nc".as_slice(),
            5,
            [].as_slice(),
            b"ab||c|E".as_slice(),
        ),
        (b"".as_slice(), 5, [].as_slice(), b"E".as_slice()),
        (b"\n".as_slice(), 5, [].as_slice(), b"|E".as_slice()),
        (b"ab\ncd".as_slice(), 4, [].as_slice(), b"ab|B".as_slice()),
        (
            b"ab\ncd".as_slice(),
            5,
            [2u64].as_slice(),
            b"ab|F".as_slice(),
        ),
    ];
    for (bytes, limit, failing, want) in cases {
        assert!(rt; are_read(rt.alloc(), bytes, limit, failing, want)?);
    }
    Ok(())
}

/// A sink with room for four bytes, whose calls of these numbers fail, after one text was written and then another.
fn written(
    alloc: Global,
    failing: &[u64],
    first: &[u8],
    second: &[u8],
) -> Result<(MemSink, bool), AllocError> {
    let mut sink = MemSink::new(alloc, 4, Vec::from_slice(alloc, failing)?)?;
    let done = write_whole(&mut sink, first).is_ok() && write_whole(&mut sink, second).is_ok();
    Ok((sink, done))
}

/// Whether a sink with room for four bytes holds these after two texts were written, and whether both were.
fn holds(
    alloc: Global,
    failing: &[u64],
    texts: (&[u8], &[u8]),
    want: &[u8],
    both: bool,
) -> Result<bool, AllocError> {
    let (sink, done) = written(alloc, failing, texts.0, texts.1)?;
    Ok(sink.bytes() == want && done == both)
}

#[test]
fn a_sink_holds_what_fits(rt: HostRuntime) -> Result<(), Fail> {
    let texts = (b"abc".as_slice(), b"def".as_slice());
    assert!(rt; holds(rt.alloc(), &[], texts, b"abcd", false)?);
    assert!(rt; holds(rt.alloc(), &[1], texts, b"abc", false)?);
    assert!(rt; holds(rt.alloc(), &[], (b"ab", b"cd"), b"abcd", true)?);
    Ok(())
}
