ghost use Rattle.std.specs.Prelude.{◌≡◌, ◌≤◌, ◌<◌, List, ℕ, length, Err, IfSome, IfOk, OnErr, Option, Some, string_bytes};
ghost use Rattle.cm_outside.specs.Answering.{Answered, Machine};
ghost use Rattle.cm_outside.specs.Faults.{Rose};
ghost use Rattle.cm_outside.specs.Lines.{max_line};

use cm_outside::StoreFault;
use std::alloc::AllocError;

/// What answers lines with the help of what it is lent for each, as a kit of rules, and of a store, or of `()` where it
/// needs none. What it answers may depend on the lines before and on what the store has.
pub trait Answers<W, D> {
    /// Plain data, by which it and its store are seen.
    ghost Plain: { Type 0 };
    /// What it and its store are as plain data, where they tell this.
    ghost told: { Self → D → Option Plain };
    /// What a line makes of the plain data, and the reply to it.
    ghost machine: { Machine (List ℕ) Plain };
    /// How often the store failed. The count never falls.
    ghost faults: { D → ℕ };
    /// What may be lent.
    ghost can_lend: { W → Type 0 };

    /// The reply to a line, given without its LF. `Failed` comes only where the count of faults rose, and leaves all as
    /// before but for a file, which may be as asked; `NoMemory` changes nothing.
    fn answer(&mut self, with: &W, line: &[u8], store: &mut D) -> Result<String, StoreFault>
        requires { can_lend with.now }
        ensures answered { IfSome (told self.old store.old) (λ p.
            Answered machine line.now p (told self.new store.new) result) }
        ensures later { faults store.old ≤ faults store.new }
        ensures cause { result ≡ Err StoreFault.Failed → Rose (faults store.old) (faults store.new) };

    /// The reply to a line of more bytes than a line may have, whichever these are. The only error is out of memory,
    /// which changes nothing.
    fn answer_long(&mut self, store: &D) -> Result<String, AllocError>
        ensures reply { IfSome (told self.old store.now) (λ p. IfOk result (λ r. (line : List ℕ) → max_line < length line
            → (string_bytes r ≡ machine.reply line p) × (told self.new store.now ≡ Some (machine.after line p)))) }
        ensures memory { OnErr result (told self.new store.now ≡ told self.old store.now) };
}
