ghost use Rattle.std.specs.Prelude.{◌≡◌, ◌⊎◌, Ok, ◌+◌, ◌-◌, ◌≤◌, ◌<◌, ◌++◌, [], ◌∷◌, true, false, take, drop, length, vec_len, IfOk, IfSome, OnOk, OnErr, MatchOption, MatchBool};
ghost use Rattle.cm_outside.specs.Faults.{Rose, HasCause};
ghost use Rattle.cm_outside.specs.Lines.{line_feed, max_line, HasNoBreak};
ghost use Rattle.cm_outside.specs.Source.{Gives, count_of};
ghost use Rattle.cm_outside.specs.Progress.{Reads, Advances, TakesOf, KeepsLimit, ReadsLate, read_room};
ghost use Rattle.cm_outside.specs.NextBytes.{TakesByte, TakesByteFrom};
ghost use Rattle.cm_outside.specs.Filling.{SameCounts, CutsLine, TakesRest, Fills, FillsFrom, IsLineOrTooLong};

use crate::failed::Failed;
use crate::next_byte::NextByte;
use crate::reading::{MAX_LINE, Reading};
use crate::source::Source;
use memchr::memchr;
use std::alloc::{AllocError, Global};
use std::marker::Model;

/// How many bytes are asked for at once, at most.
const ROOM: usize = 8_192;

/// What a read found, where nothing stood ready.
enum Filled {
    /// Bytes within the limit.
    More,
    /// The end of input.
    Ended,
    /// The source failed.
    Failing,
    /// The byte past the limit.
    Past,
}

/// Cuts the bytes of a source into lines, each of which ends at an LF or at the end of input. It takes at most one
/// byte more than its limit, and reads only where no whole line is left among the bytes that it took.
#[derive(Drop)]
pub struct LineReader {
    limit: u64,
    taken: u128,
    ended: bool,
    buffer: Vec<u8>,
    from: usize,
    to: usize,
}

impl Model for LineReader {
    ghost use Rattle.std.specs.Prelude.{◌≡◌, ◌-◌, ◌≤◌, take, drop, length};
    ghost use Rattle.cm_outside.specs.Progress.{Progress, read_room};

    ghost Value = { Progress };

    ghost view = { λ r. record {
      limit = r.limit;
      taken = r.taken;
      ended = r.ended;
      rest = take (r.to - r.from) (drop r.from r.buffer.items);
    } };

    ghost invariant = { λ r. (r.from ≤ r.to) × (r.to ≤ length r.buffer.items) × (length r.buffer.items ≡ read_room) };
}

/// The place of the first LF.
#[tactic(auto, using(crate::proofs::Breaks::break_found))]
fn break_in(part: &[u8]) -> Option<usize>
    ensures { MatchOption result (HasNoBreak part.now) (λ at. (at < length part.now)
        × HasNoBreak (take at part.now)
        × (part.now ≡ take at part.now ++ line_feed ∷ drop (at + 1) part.now)) }
{
    memchr(b'\n', part)
}

/// Adds a part to a line, of which only the bytes up to one more than `MAX_LINE` are kept.
#[tactic(auto, using(crate::proofs::Breaks::added))]
fn keep(line: &mut Vec<u8>, part: &[u8]) -> Result<(), AllocError>
    requires { vec_len line.old ≤ max_line + 1 }
    ensures { OnOk result (line.new.items ≡ take (max_line + 1) (line.old.items ++ part.now)) }
{
    let room = MAX_LINE + 1 - line.len();
    let (kept, _) = part.split_at(room.min(part.len()));
    line.extend_from_slice(kept)?;
    Ok(())
}

/// Reads into a prefix of the buffer, of at most this many bytes.
fn read_prefix<S: Source>(source: &mut S, buffer: &mut [u8], most: u128) -> Result<usize, Failed>
    requires room { 0 < length buffer.old }
    requires most { 0 < most }
    ensures bound { count_of result ≤ length buffer.new }
    ensures most { count_of result ≤ most }
    ensures given { S.given source.new ≡ S.given source.old + count_of result }
    ensures asked { S.asked source.new ≡ S.given source.old }
    ensures bytes { IfSome (S.left source.old) (λ input. Gives input (S.left source.new) buffer.new result) }
    ensures cause { HasCause (S.faults source.old) (S.faults source.new) result }
{
    let len = buffer.len();
    let room = if (len as u128) < most {
        len
    } else {
        most as usize
    };
    let (prefix, _) = buffer.split_at_mut(room);
    source.read(prefix)
}

fn line_or_too_long(line: Vec<u8>) -> Reading
    ensures { IsLineOrTooLong result line }
{
    if line.len() > MAX_LINE {
        Reading::TooLong
    } else {
        Reading::Line(line)
    }
}

impl LineReader {
    /// A reader that takes at most `limit` bytes, and one more by which it knows that there are more. The only error
    /// is out of memory.
    pub fn new(alloc: Global, limit: u64) -> Result<LineReader, AllocError>
        ensures { IfOk result (λ r. r ≡ record { limit = limit; taken = 0; ended = false; rest = [] }) }
    {
        Ok(LineReader {
            limit,
            taken: 0,
            ended: false,
            buffer: vec![in alloc; 0u8; ROOM]?,
            from: 0,
            to: 0,
        })
    }

    /// Adds what stands ready to the line, up to a break. Answers whether there was one.
    fn cut(&mut self, line: &mut Vec<u8>) -> Result<bool, AllocError>
        requires { vec_len line.old ≤ max_line + 1 }
        ensures counts { SameCounts self.old self.new }
        ensures cut { IfOk result (λ found. MatchBool found
            (CutsLine line.old.items line.new.items self.old.rest self.new.rest)
            (TakesRest line.old.items line.new.items self.old.rest self.new.rest)) }
    {
        let ready = &self.buffer[self.from..self.to];
        match break_in(ready) {
            Some(at) => {
                let (part, _) = ready.split_at(at);
                keep(line, part)?;
                self.from += at + 1;
                Ok(true)
            }
            None => {
                keep(line, ready)?;
                self.from = self.to;
                Ok(false)
            }
        }
    }

    /// Reads once, where nothing stands ready.
    fn fill<S: Source>(&mut self, source: &mut S) -> Filled
        requires empty { self.old.rest ≡ [] }
        requires within { self.old.taken ≤ self.old.limit }
        ensures limit { self.new.limit ≡ self.old.limit }
        ensures counted { S.given source.new + self.old.taken ≡ S.given source.old + self.new.taken }
        ensures fills { Fills result self.old self.new }
        ensures asked { S.asked source.new ≡ S.given source.old }
        ensures once { S.given source.new ≤ S.asked source.new + read_room }
        ensures left { IfSome (S.left source.old) (λ input. TakesOf self.old self.new input (S.left source.new)) }
        ensures told { IfSome (S.left source.old) (FillsFrom result self.old self.new) }
        ensures later { S.faults source.old ≤ S.faults source.new }
        ensures cause { result ≡ Filled.Failing → Rose (S.faults source.old) (S.faults source.new) }
    {
        self.from = 0;
        self.to = 0;
        if self.taken == self.limit as u128 {
            let mut byte = [0u8; 1];
            return match source.read(&mut byte) {
                Err(Failed) => Filled::Failing,
                Ok(0) => {
                    self.ended = true;
                    Filled::Ended
                }
                Ok(_) => {
                    self.taken += 1;
                    Filled::Past
                }
            };
        }
        match read_prefix(source, &mut self.buffer, self.limit as u128 - self.taken) {
            Err(Failed) => Filled::Failing,
            Ok(0) => {
                self.ended = true;
                Filled::Ended
            }
            Ok(count) => {
                self.to = count;
                self.taken += count as u128;
                Filled::More
            }
        }
    }

    /// Reads the next line, with as many reads of the source as that takes, each of at most 8,192 bytes and made only
    /// where no whole line is left among the bytes taken. `Failed` comes only where the source's
    /// count of faults rose, `Budget` exactly where one byte more than the limit was taken. After `Budget` it isn't
    /// to be called again. After `Failed`, and when out of memory, which is the only error, the bytes that were
    /// taken of the line are lost.
    pub fn read_line<S: Source>(&mut self, source: &mut S) -> Result<Reading, AllocError>
        requires within { self.old.taken ≤ self.old.limit }
        ensures limit { self.new.limit ≡ self.old.limit }
        ensures taken { (self.old.taken ≤ self.new.taken)
            × (S.given source.new + self.old.taken ≡ S.given source.old + self.new.taken) }
        ensures left { IfSome (S.left source.old) (λ input. TakesOf self.old self.new input (S.left source.new)) }
        ensures reads { IfOk result (λ r. IfSome (S.left source.old) (Reads r self.old self.new)) }
        ensures advances { IfOk result (λ r. Advances r self.old self.new) }
        ensures budget { IfOk result (λ r. KeepsLimit r self.new) }
        ensures late { ReadsLate S.given S.asked self.old source.old source.new (S.left source.old) }
        ensures memory { OnErr result (self.new.taken ≤ self.new.limit) }
        ensures later { S.faults source.old ≤ S.faults source.new }
        ensures cause { result ≡ Ok Reading.Failed → Rose (S.faults source.old) (S.faults source.new) }
    {
        if self.ended {
            return Ok(Reading::End);
        }
        let mut line = Vec::new(*self.buffer.allocator());
        loop {
            if self.cut(&mut line)? {
                return Ok(line_or_too_long(line));
            }
            match self.fill(source) {
                Filled::More => {}
                Filled::Ended if line.is_empty() => return Ok(Reading::End),
                Filled::Ended => return Ok(line_or_too_long(line)),
                Filled::Failing => return Ok(Reading::Failed),
                Filled::Past => return Ok(Reading::Budget),
            }
        }
    }
    /// The first of the bytes that stand ready.
    #[tactic(auto, using(crate::proofs::Cutting::first_ready))]
    fn take_ready(&mut self) -> u8
        requires { 0 < length self.old.rest }
        ensures counts { SameCounts self.old self.new }
        ensures bytes { self.old.rest ≡ result ∷ self.new.rest }
    {
        let byte = self.buffer[self.from];
        self.from += 1;
        byte
    }

    /// Takes the next byte, with one read of the source, of at most 8,192 bytes, where no byte is left among those that
    /// were taken. `Failed` comes only where the source's count of faults rose, `Budget` exactly where one byte more
    /// than the limit was taken. After `Budget` it isn't to be called again.
    pub fn read_byte<S: Source>(&mut self, source: &mut S) -> NextByte
        requires within { self.old.taken ≤ self.old.limit }
        ensures limit { self.new.limit ≡ self.old.limit }
        ensures counted { (self.old.taken ≤ self.new.taken)
            × (S.given source.new + self.old.taken ≡ S.given source.old + self.new.taken) }
        ensures takes { TakesByte result self.old self.new }
        ensures told { IfSome (S.left source.old) (λ input. TakesByteFrom result self.old self.new input (S.left source.new)) }
        ensures late { (source.new ≡ source.old) ⊎ (self.old.rest ≡ []) }
        ensures later { S.faults source.old ≤ S.faults source.new }
        ensures cause { result ≡ NextByte.Failed → Rose (S.faults source.old) (S.faults source.new) }
    {
        if self.from < self.to {
            return NextByte::Byte(self.take_ready());
        }
        match self.fill(source) {
            Filled::More => NextByte::Byte(self.take_ready()),
            Filled::Ended => NextByte::End,
            Filled::Failing => NextByte::Failed,
            Filled::Past => NextByte::Budget,
        }
    }
}
