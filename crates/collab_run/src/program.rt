ghost use Rattle.cm_outside.specs.Sink.{sink_told};
ghost use Rattle.cm_outside.specs.Source.{source_told};
ghost use Rattle.line_run.specs.Run.{RanAlone};
ghost use Rattle.collab_run.specs.Transcript.{fresh, machine};

use crate::play::Play;
use cm_outside::{Sink, Source, Status};
use line_run::run_lines;
use std::alloc::Global;

/// Answers each line of the source, in order, to its end: one reply a line, each written whole before the next line
/// is answered. A line ends at LF or at the end of input, and a last part without bytes is no line. At most `limit`
/// bytes are taken, and one more by which the run knows that there are more.
///
/// `Ok`: the input was read to its end. `ReadFault`, `WriteFault`: the count of faults of the source, of the sink
/// rose. `TooMuch`: one byte more than the limit was taken. `NoMemory`: out of memory. No other status comes.
pub fn collab<S: Source, K: Sink>(alloc: Global, limit: u64, source: &mut S, sink: &mut K) -> Status
    ensures { RanAlone machine fresh result (record {
      limit = limit;
      source = source_told S.left S.given S.faults source.old;
      source_now = source_told S.left S.given S.faults source.new;
      sink = sink_told K.held K.faults sink.old;
      sink_now = sink_told K.held K.faults sink.new;
    }) }
{
    let mut play = Play::new(alloc);
    run_lines(alloc, &(), &mut play, &mut (), limit, source, sink)
}
