ghost use Rattle.std.specs.Prelude.{◌≡◌, ◌+◌, ◌≤◌, ℕ, List, Option, length, IfSome};
ghost use Rattle.cm_outside.specs.Faults.{HasCause};
ghost use Rattle.cm_outside.specs.Source.{Gives, count_of};

use crate::failed::Failed;

/// Where bytes come from.
pub trait Source {
    /// The bytes that it has left, where the source tells them.
    ghost left: { Self → Option (List ℕ) };
    /// How many bytes it gave since it was made.
    ghost given: { Self → ℕ };
    /// How many bytes it had given when it was last read.
    ghost asked: { Self → ℕ };
    /// How often it failed. The count never falls.
    ghost faults: { Self → ℕ };

    /// Fills a prefix of the room with the next bytes, and answers how many these are. No byte into a room that isn't
    /// empty is the end of the input. `Failed` comes only where the count of faults rose, and gives no byte.
    fn read(&mut self, room: &mut [u8]) -> Result<usize, Failed>
        ensures bound { count_of result ≤ length room.new }
        ensures given { given self.new ≡ given self.old + count_of result }
        ensures asked { asked self.new ≡ given self.old }
        ensures bytes { IfSome (left self.old) (λ input. Gives input (left self.new) room.new result) }
        ensures cause { HasCause (faults self.old) (faults self.new) result };
}
