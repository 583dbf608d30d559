ghost use Rattle.std.specs.Prelude.{◌≡◌, ◌≤◌, ◌-◌, Err, IfSome, IfErr, OnOk, length, ◌⊎◌, false, []};
ghost use Rattle.cm_outside.specs.Answering.{answerer_told, exchange_of};
ghost use Rattle.cm_outside.specs.Faults.{Rose};
ghost use Rattle.cm_outside.specs.Sink.{sink_told};
ghost use Rattle.cm_outside.specs.Source.{source_told};
ghost use Rattle.cm_outside.specs.Runs.{HasReason, Gave};
ghost use Rattle.line_run.specs.Run.{Ran, Ended};
ghost use Rattle.line_run.specs.Responding.{Responds, EndsBy, IsLine};

use crate::answers::Answers;
use cm_outside::{LineReader, Reading, Sink, Source, Status, StoreFault, write_whole};
use std::alloc::Global;

/// Answers what was read. An `Err` is how the run ends.
fn respond<W, D, A: Answers<W, D>, K: Sink>(
    with: &W,
    answers: &mut A,
    store: &mut D,
    reading: &Reading,
    sink: &mut K,
) -> Result<(), Status>
    requires { A.can_lend with.now }
    ensures responds { IfSome (A.told answers.old store.old) (λ p. Responds A.machine reading.now
        (exchange_of p (A.told answers.new store.new) (K.held sink.old) (K.held sink.new)) result) }
    ensures goes_on { OnOk result (IsLine reading.now) }
    ensures ends { IfErr result (EndsBy reading.now) }
    ensures later { (K.faults sink.old ≤ K.faults sink.new) × (A.faults store.old ≤ A.faults store.new) }
    ensures write_cause { result ≡ Err Status.WriteFault → Rose (K.faults sink.old) (K.faults sink.new) }
    ensures store_cause { result ≡ Err Status.StoreFault → Rose (A.faults store.old) (A.faults store.new) }
{
    let answered = match reading {
        Reading::Line(line) => answers.answer(with, line.as_slice(), store),
        Reading::TooLong => answers.answer_long(store).map_err(|_| StoreFault::NoMemory),
        Reading::End => return Err(Status::Ok),
        Reading::Failed => return Err(Status::ReadFault),
        Reading::Budget => return Err(Status::TooMuch),
    };
    let reply = match answered {
        Ok(reply) => reply,
        Err(StoreFault::Failed) => return Err(Status::StoreFault),
        Err(StoreFault::NoMemory) => return Err(Status::NoMemory),
    };
    if write_whole(sink, reply.as_bytes()).is_err() {
        return Err(Status::WriteFault);
    }
    Ok(())
}

/// Has each line that the reader cuts off the source answered, to its end.
fn answer_all<W, D, A: Answers<W, D>, S: Source, K: Sink>(
    mut reader: LineReader,
    with: &W,
    answers: &mut A,
    store: &mut D,
    source: &mut S,
    sink: &mut K,
) -> Status
    requires lent { A.can_lend with.now }
    requires fresh { reader ≡ record { limit = reader.limit; taken = 0; ended = false; rest = [] } }
    // What the run leaves, and why it ended so.
    ensures ended { IfSome (S.left source.old) (λ input. IfSome (A.told answers.old store.old) (λ first.
        Ended A.machine result reader.limit (S.given source.new - S.given source.old) input
        (exchange_of first (A.told answers.new store.new) (K.held sink.old) (K.held sink.new)))) }
    ensures reason { HasReason result reader.limit (S.given source.new - S.given source.old)
        (Rose (S.faults source.old) (S.faults source.new)) (Rose (K.faults sink.old) (K.faults sink.new))
        (Rose (A.faults store.old) (A.faults store.new)) }
    ensures gave { IfSome (S.left source.old) (λ input.
        Gave (S.given source.new - S.given source.old) input (S.left source.new)) }
    // Without a fault and within the limit the input is read to its end, or out of memory.
    ensures complete { ¬ (Rose (S.faults source.old) (S.faults source.new)) → ¬ (Rose (K.faults sink.old) (K.faults sink.new))
        → ¬ (Rose (A.faults store.old) (A.faults store.new))
        → IfSome (S.left source.old) (λ input. length input ≤ reader.limit → (result ≡ Status.Ok) ⊎ (result ≡ Status.NoMemory)) }
    ensures later { (S.given source.old ≤ S.given source.new) × (S.faults source.old ≤ S.faults source.new)
        × (K.faults sink.old ≤ K.faults sink.new) × (A.faults store.old ≤ A.faults store.new) }
{
    loop {
        let Ok(reading) = reader.read_line(source) else {
            return Status::NoMemory;
        };
        if let Err(status) = respond(with, answers, store, &reading, sink) {
            return status;
        }
    }
}

/// Has each line of the source answered, in order, to its end, with what is lent for each: one reply a line, each written
/// whole before the next line is answered. A line ends at LF or at the end of input, and a last part without bytes is no
/// line. At most `limit` bytes are taken, and one more by which the run knows that there are more.
///
/// `Ok`: the input was read to its end. `ReadFault`, `WriteFault`, `StoreFault`: the count of faults of the source, of
/// the sink, of the store rose. `TooMuch`: one byte more than the limit was taken. `NoMemory`: out of memory. No other
/// status comes.
pub fn run_lines<W, D, A: Answers<W, D>, S: Source, K: Sink>(
    alloc: Global,
    with: &W,
    answers: &mut A,
    store: &mut D,
    limit: u64,
    source: &mut S,
    sink: &mut K,
) -> Status
    requires { A.can_lend with.now }
    ensures { Ran A.machine (answerer_told A.told A.faults answers.old store.old)
        (answerer_told A.told A.faults answers.new store.new) result (record {
          limit = limit;
          source = source_told S.left S.given S.faults source.old;
          source_now = source_told S.left S.given S.faults source.new;
          sink = sink_told K.held K.faults sink.old;
          sink_now = sink_told K.held K.faults sink.new;
        }) }
{
    match LineReader::new(alloc, limit) {
        Ok(reader) => answer_all(reader, with, answers, store, source, sink),
        Err(_) => Status::NoMemory,
    }
}
