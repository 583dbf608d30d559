ghost use Rattle.std.specs.Prelude.{◌≡◌, IfSome, map, option_map};
ghost use Rattle.cm_outside.specs.Sink.{sink_told};
ghost use Rattle.cm_outside.specs.Source.{source_told};
ghost use Rattle.values.specs.Whole.{IsWhole};
ghost use Rattle.words.specs.Words.{IsInRange, invocation, words_of};
ghost use Rattle.session.specs.Headline.{Headline, ProgramRan, Replayed};
ghost use Rattle.session.specs.Stores.{store_told};

use crate::editing::edit;
use crate::making::make;
use crate::session::Session;
use cm_outside::{Clock, Sink, Source, Status, Store};
use collab_run::collab;
use line_run::run_lines;
use std::alloc::Global;
use std::convert::AsStr;
use values::{Kit, Meanings};
use words::Words;

/// The greatest number of bytes that a run of the program takes.
pub const LIMIT: u64 = 4_294_967_296;

/// Answers each line of the source, in order, to its end: one reply a line, each written whole before the next line
/// is answered. A line ends at LF or at the end of input, and a last part without bytes is no line. At most `limit`
/// bytes are taken, and one more by which the run knows that there are more. The rules of facets and fields are those of the
/// kit; files are loaded from the store and saved to it.
///
/// `Ok`: the input was read to its end. `ReadFault`, `WriteFault`, `StoreFault`: the count of faults of the source, of the sink,
/// of the store rose. `TooMuch`: one byte more than the limit was taken. `NoMemory`: out of memory. No other status comes.
pub fn replay<M: Meanings, S: Source, K: Sink, D: Store>(
    alloc: Global,
    kit: &Kit<M>,
    limit: u64,
    source: &mut S,
    sink: &mut K,
    store: &mut D,
) -> Status
    requires whole { IsWhole M.rules kit.now }
    ensures { Replayed M.rules result (record {
      limit = limit;
      source = source_told S.left S.given S.faults source.old;
      source_now = source_told S.left S.given S.faults source.new;
      sink = sink_told K.held K.faults sink.old;
      sink_now = sink_told K.held K.faults sink.new;
    }) (store_told D.files D.faults store.old) (store_told D.files D.faults store.new) }
{
    match Session::new(alloc) {
        Ok(mut session) => run_lines(alloc, kit, &mut session, store, limit, source, sink),
        Err(_) => Status::NoMemory,
    }
}

/// Does what the words of the command line, without the program's name, ask for, with a limit of 4,294,967,296 bytes. `replay`
/// alone replays the source; `collab` alone answers each line of the source as a world of clients and an authority, under the
/// statuses of `replay`; `edit FILE ROWS COLS` edits a file by the keys of the source; `make N` answers the lines of a made
/// workload. `Usage` comes exactly where the words have none of these forms, unless memory ran out while they were read, which is
/// `NoMemory`; nothing is read or written then.
pub fn run<M: Meanings, W: AsStr, S: Source, K: Sink, D: Store, C: Clock>(
    alloc: Global,
    words: &[W],
    kit: &Kit<M>,
    source: &mut S,
    sink: &mut K,
    store: &mut D,
    clock: &mut C,
) -> Status
    requires whole { IsWhole M.rules kit.now }
    ensures { ProgramRan M.rules (words_of (map W.text words.now)) result (record {
      left = S.left;
      given = S.given;
      read_faults = S.faults;
      held = K.held;
      write_faults = K.faults;
      files = D.files;
      store_faults = D.faults;
      coming = C.coming;
    }) (record { source = source.old; sink = sink.old; store = store.old; clock = clock.old })
        (record { source = source.new; sink = sink.new; store = store.new; clock = clock.new }) }
{
    match Words::of(alloc, words) {
        Ok(asked) => run_asked(alloc, asked, kit, source, sink, store, clock),
        Err(_) => Status::NoMemory,
    }
}

/// Does what was asked for, as `run` does.
fn run_asked<M: Meanings, S: Source, K: Sink, D: Store, C: Clock>(
    alloc: Global,
    asked: Option<Words>,
    kit: &Kit<M>,
    source: &mut S,
    sink: &mut K,
    store: &mut D,
    clock: &mut C,
) -> Status
    requires whole { IsWhole M.rules kit.now }
    requires range { IfSome asked IsInRange }
    ensures { Headline M.rules (option_map invocation asked) result (record {
      left = S.left;
      given = S.given;
      read_faults = S.faults;
      held = K.held;
      write_faults = K.faults;
      files = D.files;
      store_faults = D.faults;
      coming = C.coming;
    }) (record { source = source.old; sink = sink.old; store = store.old; clock = clock.old })
        (record { source = source.new; sink = sink.new; store = store.new; clock = clock.new }) }
{
    match asked {
        Some(Words::Replay) => replay(alloc, kit, LIMIT, source, sink, store),
        Some(Words::Collab) => collab(alloc, LIMIT, source, sink),
        Some(Words::Edit { file, rows, cols }) => edit(
            alloc, kit, LIMIT, &file, rows, cols, source, sink, store, clock,
        ),
        Some(Words::Make { transactions }) => make(alloc, kit, transactions, sink, store),
        None => Status::Usage,
    }
}
