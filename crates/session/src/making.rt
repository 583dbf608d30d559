ghost use Rattle.std.specs.Prelude.{◌≤◌};
ghost use Rattle.cm_outside.specs.Sink.{sink_told};
ghost use Rattle.values.specs.Whole.{IsWhole};
ghost use Rattle.workload.specs.MadeLines.{max_transactions};
ghost use Rattle.session.specs.Making.{Made};
ghost use Rattle.session.specs.Stores.{store_told};

use crate::session::Session;
use cm_outside::{Sink, Status, Store};
use made_run::run_workload;
use std::alloc::Global;
use values::{Kit, Meanings};

/// Answers each line of the made workload of `count` transactions, at most 1,000,000, in a session of its own, and writes the
/// reply to the last line alone, which is the summary. The rules of facets and fields are those of the kit; the store is the
/// session's. The lines and the reply are the same in each run.
///
/// `Ok`: the reply was written whole. `WriteFault`, `StoreFault`: the count of faults of the sink, of the store rose; with
/// `WriteFault` a prefix of the reply was written, and else nothing. `NoMemory`: out of memory, and nothing was written. No
/// other status comes.
pub fn make<M: Meanings, K: Sink, D: Store>(
    alloc: Global,
    kit: &Kit<M>,
    count: u32,
    sink: &mut K,
    store: &mut D,
) -> Status
    requires whole { IsWhole M.rules kit.now }
    requires few { count ≤ max_transactions }
    ensures { Made M.rules count result (sink_told K.held K.faults sink.old) (sink_told K.held K.faults sink.new)
        (store_told D.files D.faults store.old) (store_told D.files D.faults store.new) }
{
    let Ok(mut session) = Session::new(alloc) else {
        return Status::NoMemory;
    };
    run_workload(alloc, kit, &mut session, store, count, sink)
}
