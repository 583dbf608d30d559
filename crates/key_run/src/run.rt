ghost use Rattle.std.specs.Prelude.{◌≡◌, ◌≢◌, ◌≤◌, ◌-◌, ◌⊎◌, Err, IfErr, IfSome, OnOk, ℤ, pos, false, []};
ghost use Rattle.cm_outside.specs.Answering.{answerer_told, exchange_of};
ghost use Rattle.cm_outside.specs.Faults.{Rose};
ghost use Rattle.cm_outside.specs.Responding.{RespondsTo, IsStop};
ghost use Rattle.cm_outside.specs.Runs.{HasReason, Gave};
ghost use Rattle.cm_outside.specs.Sink.{sink_told};
ghost use Rattle.cm_outside.specs.Source.{source_told};
ghost use Rattle.key_run.specs.Pressing.{Presses, EndsBy};
ghost use Rattle.key_run.specs.Run.{Ran, Ended, ReadsClock, IsReadTimes, IsWithin};
ghost use Rattle.key_run.specs.Typing.{shown, opened, pressed, is_quit};

use crate::answers_keys::AnswersKeys;
use cm_outside::{Clock, LineReader, NextByte, Sink, Source, Status, StoreFault, write_whole};
use std::alloc::Global;
use term_keys::{Key, KeyReader};

/// Writes the first frame. An `Err` is how the run ends.
fn open<W, D, A: AnswersKeys<W, D>, K: Sink>(
    with: &W,
    answers: &mut A,
    store: &D,
    sink: &mut K,
) -> Result<(), Status>
    requires { A.can_lend with.now }
    ensures responds { IfSome (A.told answers.old store.now) (λ p. RespondsTo (shown (A.machine with.now)) opened
        (exchange_of p (A.told answers.new store.now) (K.held sink.old) (K.held sink.new)) result) }
    ensures ends { IfErr result IsStop }
    ensures later { K.faults sink.old ≤ K.faults sink.new }
    ensures write_cause { result ≡ Err Status.WriteFault → Rose (K.faults sink.old) (K.faults sink.new) }
    ensures no_store { result ≢ Err Status.StoreFault }
{
    let Ok(frame) = answers.first_frame(with, store) else {
        return Err(Status::NoMemory);
    };
    if write_whole(sink, frame.as_bytes()).is_err() {
        return Err(Status::WriteFault);
    }
    Ok(())
}

/// Answers a key other than Quit at a time. An `Err` is how the run ends.
fn respond<W, D, A: AnswersKeys<W, D>, K: Sink>(
    with: &W,
    answers: &mut A,
    store: &mut D,
    key: Key,
    time: i64,
    sink: &mut K,
) -> Result<(), Status>
    requires lent { A.can_lend with.now }
    requires other { key ≢ Key.Quit }
    ensures responds { IfSome (A.told answers.old store.old) (λ p. RespondsTo (shown (A.machine with.now)) (pressed key time)
        (exchange_of p (A.told answers.new store.new) (K.held sink.old) (K.held sink.new)) result) }
    ensures ends { IfErr result IsStop }
    ensures later { (K.faults sink.old ≤ K.faults sink.new) × (A.faults store.old ≤ A.faults store.new) }
    ensures write_cause { result ≡ Err Status.WriteFault → Rose (K.faults sink.old) (K.faults sink.new) }
    ensures store_cause { result ≡ Err Status.StoreFault → Rose (A.faults store.old) (A.faults store.new) }
{
    let frame = match answers.answer_key(with, key, time, store) {
        Ok(frame) => frame,
        Err(StoreFault::Failed) => return Err(Status::StoreFault),
        Err(StoreFault::NoMemory) => return Err(Status::NoMemory),
    };
    if write_whole(sink, frame.as_bytes()).is_err() {
        return Err(Status::WriteFault);
    }
    Ok(())
}

/// Reads the clock, and answers a key; Quit ends the run. An `Err` is how the run ends.
fn press<W, D, A: AnswersKeys<W, D>, K: Sink, C: Clock>(
    with: &W,
    answers: &mut A,
    store: &mut D,
    key: Key,
    sink: &mut K,
    clock: &mut C,
) -> Result<(), Status>
    requires { A.can_lend with.now }
    ensures presses { IfSome (A.told answers.old store.old) (λ p. IfSome (C.coming clock.old) (λ times.
        Presses (A.machine with.now) key (pos (times 0))
        (exchange_of p (A.told answers.new store.new) (K.held sink.old) (K.held sink.new)) result)) }
    ensures clock { IfSome (C.coming clock.old) (λ times. IsReadTimes 1 times (C.coming clock.new)) }
    ensures goes_on { OnOk result (is_quit key ≡ false) }
    ensures ends { IfErr result (EndsBy (is_quit key)) }
    ensures later { (K.faults sink.old ≤ K.faults sink.new) × (A.faults store.old ≤ A.faults store.new) }
    ensures write_cause { result ≡ Err Status.WriteFault → Rose (K.faults sink.old) (K.faults sink.new) }
    ensures store_cause { result ≡ Err Status.StoreFault → Rose (A.faults store.old) (A.faults store.new) }
{
    let time = clock.now();
    if key == Key::Quit {
        return Err(Status::Ok);
    }
    respond(with, answers, store, key, time, sink)
}

/// Writes the first frame, and answers the keys of the bytes that a reader takes off the source.
fn answer_all<W, D, A: AnswersKeys<W, D>, S: Source, K: Sink, C: Clock>(
    mut bytes: LineReader,
    with: &W,
    answers: &mut A,
    store: &mut D,
    source: &mut S,
    sink: &mut K,
    clock: &mut C,
) -> Status
    requires lent { A.can_lend with.now }
    requires fresh { bytes ≡ record { limit = bytes.limit; taken = 0; ended = false; rest = [] } }
    // What the run leaves, why it ended so, and how often the clock was read.
    ensures ended { IfSome (S.left source.old) (λ input. IfSome (A.told answers.old store.old) (λ first. IfSome (C.coming clock.old) (λ times.
        Ended (A.machine with.now) result bytes.limit (S.given source.new - S.given source.old) input times
        (exchange_of first (A.told answers.new store.new) (K.held sink.old) (K.held sink.new))))) }
    ensures reason { HasReason result bytes.limit (S.given source.new - S.given source.old)
        (Rose (S.faults source.old) (S.faults source.new)) (Rose (K.faults sink.old) (K.faults sink.new))
        (Rose (A.faults store.old) (A.faults store.new)) }
    ensures gave { IfSome (S.left source.old) (λ input.
        Gave (S.given source.new - S.given source.old) input (S.left source.new)) }
    // Without a fault and within the limit the input is read to its end or up to Quit, or out of memory.
    ensures complete { ¬ (Rose (S.faults source.old) (S.faults source.new)) → ¬ (Rose (K.faults sink.old) (K.faults sink.new))
        → ¬ (Rose (A.faults store.old) (A.faults store.new))
        → IfSome (S.left source.old) (λ input. IsWithin bytes.limit input → (result ≡ Status.Ok) ⊎ (result ≡ Status.NoMemory)) }
    ensures clock { IfSome (S.left source.old) (λ input. IfSome (C.coming clock.old) (λ times.
        ReadsClock result bytes.limit (S.given source.new - S.given source.old) input times (C.coming clock.new))) }
    ensures later { (S.given source.old ≤ S.given source.new) × (S.faults source.old ≤ S.faults source.new)
        × (K.faults sink.old ≤ K.faults sink.new) × (A.faults store.old ≤ A.faults store.new) }
{
    if let Err(status) = open(with, answers, store, sink) {
        return status;
    }
    let mut keys = KeyReader::new();
    loop {
        let key = match bytes.read_byte(source) {
            NextByte::Byte(byte) => keys.feed(byte),
            NextByte::End => return Status::Ok,
            NextByte::Failed => return Status::ReadFault,
            NextByte::Budget => return Status::TooMuch,
        };
        if let Some(key) = key {
            if let Err(status) = press(with, answers, store, key, sink, clock) {
                return status;
            }
        }
    }
}

/// Writes the first frame, then has each key of the source answered, in order, to the first Quit or the end of input, with what
/// is lent for each: one frame a key, each written whole before the next byte is looked at. The clock is read once a key, and at
/// Quit too, which is not answered. At most `limit` bytes are taken, and one more by which the run knows that there are more;
/// what follows Quit among the bytes taken doesn't count.
///
/// `Ok`: the input was read to its end, or Quit came. `ReadFault`, `WriteFault`, `StoreFault`: the count of faults of the
/// source, of the sink, of the store rose. `TooMuch`: one byte more than the limit was taken, and no Quit before.
/// `NoMemory`: out of memory. No other status comes.
pub fn run_keys<W, D, A: AnswersKeys<W, D>, S: Source, K: Sink, C: Clock>(
    alloc: Global,
    with: &W,
    answers: &mut A,
    store: &mut D,
    limit: u64,
    source: &mut S,
    sink: &mut K,
    clock: &mut C,
) -> Status
    requires { A.can_lend with.now }
    ensures { Ran (A.machine with.now) (answerer_told A.told A.faults answers.old store.old)
        (answerer_told A.told A.faults answers.new store.new) (C.coming clock.old) (C.coming clock.new) result (record {
          limit = limit;
          source = source_told S.left S.given S.faults source.old;
          source_now = source_told S.left S.given S.faults source.new;
          sink = sink_told K.held K.faults sink.old;
          sink_now = sink_told K.held K.faults sink.new;
        }) }
{
    match LineReader::new(alloc, limit) {
        Ok(bytes) => answer_all(bytes, with, answers, store, source, sink, clock),
        Err(_) => Status::NoMemory,
    }
}
