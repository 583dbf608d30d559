ghost use Rattle.std.specs.Prelude.{◌≡◌, ◌+◌, ◌≤◌, ◌<◌, ℕ, List, Option, length, take, IfOk, IfSome};
ghost use Rattle.cm_outside.specs.Faults.{HasCause};
ghost use Rattle.cm_outside.specs.Source.{count_of};
ghost use Rattle.cm_outside.specs.Sink.{Appends, AppendsAll};

use crate::failed::Failed;

/// Where bytes go.
pub trait Sink {
    /// The bytes that it holds, where the sink tells them.
    ghost held: { Self → Option (List ℕ) };
    /// How often it failed. The count never falls.
    ghost faults: { Self → ℕ };

    /// Takes a prefix of the piece, and answers how many bytes that is: at least one of a piece that isn't empty.
    /// `Failed` comes only where the count of faults rose, and takes no byte.
    fn write(&mut self, piece: &[u8]) -> Result<usize, Failed>
        ensures bound { count_of result ≤ length piece.now }
        ensures some { 0 < length piece.now → IfOk result (λ n. 0 < n) }
        ensures bytes { IfSome (held self.old) (λ before.
            Appends before (held self.new) (take (count_of result) piece.now)) }
        ensures cause { HasCause (faults self.old) (faults self.new) result };
}

/// Writes all of the bytes, in as many pieces as the sink wants. After `Failed`, which comes only where the sink's
/// count of faults rose, a prefix of the bytes was written.
pub fn write_whole<K: Sink>(sink: &mut K, bytes: &[u8]) -> Result<(), Failed>
    ensures bytes { IfSome (K.held sink.old) (λ before. AppendsAll before (K.held sink.new) bytes.now result) }
    ensures cause { HasCause (K.faults sink.old) (K.faults sink.new) result }
{
    let mut rest = bytes;
    while !rest.is_empty() {
        let count = sink.write(rest)?;
        rest = rest.split_at(count).1;
    }
    Ok(())
}
