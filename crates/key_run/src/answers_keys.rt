ghost use Rattle.std.specs.Prelude.{◌≡◌, ◌≢◌, ◌≤◌, ℕ, List, Err, IfSome, IfOk, OnErr, Option, Some, string_bytes};
ghost use Rattle.cm_outside.specs.Answering.{Answered};
ghost use Rattle.cm_outside.specs.Faults.{Rose};
ghost use Rattle.key_run.specs.Typing.{KeyMachine, pressed, shown};

use cm_outside::StoreFault;
use std::alloc::AllocError;
use term_keys::Key;

/// What answers keys by frames with the help of what it is lent for each, as a kit of rules, and of a store, or of `()` where
/// it needs none. What it answers may depend on the keys before and on what the store has.
pub trait AnswersKeys<W, D> {
    /// Plain data, by which it and its store are seen.
    ghost Plain: { Type 0 };
    /// What it and its store are as plain data, where they tell this.
    ghost told: { Self → D → Option Plain };
    /// What a key makes of the plain data, with what is lent, and the frame that shows them.
    ghost machine: { W → KeyMachine Plain };
    /// How often the store failed. The count never falls.
    ghost faults: { D → ℕ };
    /// What may be lent.
    ghost can_lend: { W → Type 0 };

    /// The frame of what it is. The only error is out of memory, and it stays as it was.
    fn first_frame(&mut self, with: &W, store: &D) -> Result<String, AllocError>
        requires { can_lend with.now }
        ensures frame { IfSome (told self.old store.now) (λ p. IfOk result (λ r. string_bytes r ≡ (machine with.now).frame p)) }
        ensures same { told self.new store.now ≡ told self.old store.now };

    /// The frame after a key other than Quit, at a time in milliseconds. `Failed` comes only where the count of faults
    /// rose, and leaves all as before but for a file, which may be as asked; `NoMemory` changes nothing.
    fn answer_key(
        &mut self,
        with: &W,
        key: Key,
        time: i64,
        store: &mut D,
    ) -> Result<String, StoreFault>
        requires lent { can_lend with.now }
        requires other { key ≢ Key.Quit }
        ensures answered { IfSome (told self.old store.old) (λ p.
            Answered (shown (machine with.now)) (pressed key time) p (told self.new store.new) result) }
        ensures later { faults store.old ≤ faults store.new }
        ensures cause { result ≡ Err StoreFault.Failed → Rose (faults store.old) (faults store.new) };
}
