ghost use Rattle.std.specs.Prelude.{◌≤◌, IfErr, IfSome};
ghost use Rattle.cm_outside.specs.Answering.{answerer_told};
ghost use Rattle.cm_outside.specs.Faults.{Rose};
ghost use Rattle.cm_outside.specs.Sink.{sink_told};
ghost use Rattle.workload.specs.MadeLines.{line_of, made_lines, max_transactions};
ghost use Rattle.made_run.specs.Run.{IsDueTo, Ran};
ghost use Rattle.made_run.specs.Replying.{AnswersBy, RespondsBy};

use crate::answers_made::AnswersMade;
use cm_outside::{Sink, Status, StoreFault, write_whole};
use std::alloc::Global;
use workload::{MadeLine, Workload};

/// The reply to a line that is given as a value. `Err`: how the run ends, `StoreFault` or `NoMemory`.
fn respond<W, D, A: AnswersMade<W, D>>(
    with: &W,
    answers: &mut A,
    store: &mut D,
    line: MadeLine,
) -> Result<String, Status>
    requires { A.can_lend with.now }
    ensures responds { IfSome (A.told answers.old store.old) (λ p.
        RespondsBy A.machine (line_of line) p (A.told answers.new store.new) result) }
    ensures later { A.faults store.old ≤ A.faults store.new }
    ensures cause { IfErr result (λ status. IsDueTo status ⊥ (Rose (A.faults store.old) (A.faults store.new))) }
{
    match answers.answer_made(with, line, store) {
        Ok(reply) => Ok(reply),
        Err(StoreFault::Failed) => Err(Status::StoreFault),
        Err(StoreFault::NoMemory) => Err(Status::NoMemory),
    }
}

/// Has each line of a workload answered, in order, and gives the last reply. `Err`: how the run ends, `StoreFault` or `NoMemory`.
fn last_reply<W, D, A: AnswersMade<W, D>>(
    alloc: Global,
    with: &W,
    answers: &mut A,
    store: &mut D,
    workload: Workload,
) -> Result<String, Status>
    requires { A.can_lend with.now }
    ensures answers { IfSome (A.told answers.old store.old) (λ p.
        AnswersBy A.machine workload p (A.told answers.new store.new) result) }
    ensures later { A.faults store.old ≤ A.faults store.new }
    ensures cause { IfErr result (λ status. IsDueTo status ⊥ (Rose (A.faults store.old) (A.faults store.new))) }
{
    let mut reply = String::new(alloc);
    for line in workload {
        reply = respond(with, answers, store, line)?;
    }
    Ok(reply)
}

/// Has each line of the made workload of `count` transactions answered, in order, with what is lent for each, and writes the reply
/// to the last line alone. The lines are the same in each run.
///
/// `Ok`: the reply was written whole. `WriteFault`, `StoreFault`: the count of faults of the sink, of the store rose; with
/// `WriteFault` a prefix of the reply was written, and else nothing. `NoMemory`: out of memory, and nothing was written. No
/// other status comes.
#[tactic(auto, using(crate::proofs::LastReplies::completes))]
pub fn run_workload<W, D, A: AnswersMade<W, D>, K: Sink>(
    alloc: Global,
    with: &W,
    answers: &mut A,
    store: &mut D,
    count: u32,
    sink: &mut K,
) -> Status
    requires lent { A.can_lend with.now }
    requires few { count ≤ max_transactions }
    ensures { Ran A.machine count (answerer_told A.told A.faults answers.old store.old)
        (answerer_told A.told A.faults answers.new store.new) result (sink_told K.held K.faults sink.old)
        (sink_told K.held K.faults sink.new) }
{
    match last_reply(alloc, with, answers, store, Workload::new(count)) {
        Err(status) => status,
        Ok(reply) => match write_whole(sink, reply.as_bytes()) {
            Ok(()) => Status::Ok,
            Err(_) => Status::WriteFault,
        },
    }
}
