ghost use Rattle.std.specs.Prelude.{◌≡◌, ◌≤◌, Err, IfSome};
ghost use Rattle.cm_outside.specs.Answering.{Answered};
ghost use Rattle.cm_outside.specs.Faults.{Rose};
ghost use Rattle.workload.specs.MadeLines.{line_of};

use cm_outside::StoreFault;
use line_run::Answers;
use workload::MadeLine;

/// What answers the lines of a workload as values, where no line is written and none is read.
pub trait AnswersMade<W, D>: Answers<W, D> {
    /// The reply to the line that is given as a value. `Failed` comes only where the count of faults rose, and leaves all as
    /// before but for a file, which may be as asked; `NoMemory` changes nothing.
    fn answer_made(&mut self, with: &W, line: MadeLine, store: &mut D) -> Result<String, StoreFault>
        requires { Self.can_lend with.now }
        ensures answered { IfSome (Self.told self.old store.old) (λ p.
            Answered Self.machine (line_of line) p (Self.told self.new store.new) result) }
        ensures later { Self.faults store.old ≤ Self.faults store.new }
        ensures cause { result ≡ Err StoreFault.Failed → Rose (Self.faults store.old) (Self.faults store.new) };
}
