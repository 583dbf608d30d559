ghost use Rattle.std.specs.Prelude.{◌≡◌, [], ◌∷◌, ◌++◌, ℕ, List, Some, None, chars, slice_get};
ghost use Rattle.term_keys.specs.Table.{AreRows, table};
ghost use Rattle.term_keys.specs.Typed.{EachTypesItself};
ghost use Rattle.term_keys.specs.Keys.{at_start, step, keys_after, begin, spelled, with_byte, in_character, after_escape, in_sequence, control_key, arrow, document_end, sequence_key, numbered_key};
ghost use Rattle.std.specs.Option.{option_map, option_to_list};
ghost use Rattle.term_keys.specs.Modes.{reading_of, seen_step};

use crate::key::{Key, Move};
use crate::taken::Taken;
use std::marker::Model;
use std::mem;

const ESCAPE: u8 = 0x1B;

/// Reads keys from the bytes that a terminal sends, one at a time. Contracts see it as what it has read of a key that
/// isn't whole yet.
#[derive(Drop)]
pub struct KeyReader {
    mode: Mode,
}

/// What was read of a key that isn't whole yet.
#[derive(Drop)]
pub(crate) enum Mode {
    Start,
    Character(Taken),
    Escape,
    Single,
    Sequence(Taken),
}

impl Model for KeyReader {
    ghost use Rattle.term_keys.specs.Keys.{Reading};

    ghost Value = { Reading };

    ghost use Rattle.term_keys.specs.Modes.{reading_of};

    ghost view = { λ r. reading_of r.mode };
}

impl KeyReader {
    /// A reader that has taken no byte of a key. The bytes of each row of the table of keys give that row's key, and
    /// those of each character from U+0020 on but U+007F that character, whatever follows them.
    #[tactic(auto, using(crate::proofs::Characters::types_itself, crate::proofs::KeyTable::rows))]
    pub fn new() -> KeyReader
        ensures start { result ≡ at_start }
        ensures characters { EachTypesItself }
        ensures table { AreRows table }
    {
        KeyReader { mode: Mode::Start }
    }

    /// Takes one byte; the key that it ends, if it ends one. The keys of a list of bytes are those that its bytes
    /// give in turn, however the list was cut.
    pub fn feed(&mut self, byte: u8) -> Option<Key>
        ensures step { (self.new, result) ≡ step self.old byte }
        ensures keys { (more : List ℕ) → keys_after self.old (byte ∷ more) ≡ option_to_list result ++ keys_after self.new more }
    {
        let mode = mem::replace(&mut self.mode, Mode::Start);
        let (mode, key) = step(mode, byte);
        self.mode = mode;
        key
    }
}

/// The mode after a byte, and the key that it ends.
fn step(mode: Mode, byte: u8) -> (Mode, Option<Key>)
    ensures { (reading_of result.0, result.1) ≡ step (reading_of mode) byte }
{
    match mode {
        Mode::Start => begin(byte),
        Mode::Character(taken) => in_character(taken, byte),
        Mode::Escape => (after_escape(byte), None),
        Mode::Single => (Mode::Start, arrow(byte).map(Key::Move)),
        Mode::Sequence(taken) => in_sequence(taken, byte),
    }
}

/// The first byte of a key.
fn begin(byte: u8) -> (Mode, Option<Key>)
    ensures { (reading_of result.0, result.1) ≡ begin byte }
{
    if byte == ESCAPE {
        (Mode::Escape, None)
    } else if byte < b' ' || byte == 0x7F {
        (Mode::Start, control_key(byte))
    } else {
        spell(Taken::new(), byte).unwrap_or((Mode::Start, None))
    }
}

/// A byte within a character: one that breaks it is read anew.
fn in_character(taken: Taken, byte: u8) -> (Mode, Option<Key>)
    ensures { (reading_of result.0, result.1) ≡ in_character taken byte }
{
    match spell(taken, byte) {
        Some(next) => next,
        None => begin(byte),
    }
}

/// What the bytes with one more give, or `None` where they can begin no character.
fn spell(mut taken: Taken, byte: u8) -> Option<(Mode, Option<Key>)>
    ensures { option_map seen_step result ≡ spelled (with_byte taken byte) }
{
    taken.add(byte);
    match str::from_utf8(taken.as_slice()) {
        Ok(text) => Some((Mode::Start, character_key(text))),
        Err(fault) if fault.error_len().is_none() => Some((Mode::Character(taken), None)),
        Err(_) => None,
    }
}

/// The key of the first character.
fn character_key(text: &str) -> Option<Key>
    ensures { result ≡ option_map Key.Char (slice_get (chars text.now) 0) }
{
    match text.chars().next() {
        Some(character) => Some(Key::Char(character)),
        None => None,
    }
}

/// The mode after a byte that follows ESC.
fn after_escape(byte: u8) -> Mode
    ensures { reading_of result ≡ after_escape byte }
{
    match byte {
        b'[' => Mode::Sequence(Taken::new()),
        b'O' => Mode::Single,
        ESCAPE => Mode::Escape,
        _ => Mode::Start,
    }
}

/// A byte after `ESC [`: one that belongs to no sequence is read anew.
fn in_sequence(mut taken: Taken, byte: u8) -> (Mode, Option<Key>)
    ensures { (reading_of result.0, result.1) ≡ in_sequence taken byte }
{
    match byte {
        0x20..=0x3F => {
            taken.add(byte);
            (Mode::Sequence(taken), None)
        }
        0x40..=0x7E => (Mode::Start, sequence_key(taken.as_slice(), byte)),
        _ => begin(byte),
    }
}

/// The key of a byte less than U+0020, or of U+007F.
fn control_key(byte: u8) -> Option<Key>
    ensures { result ≡ control_key byte }
{
    match byte {
        0x01 => Some(Key::SelectAll),
        0x08 | 0x7F => Some(Key::DeleteBack),
        b'\t' => Some(Key::Char('\t')),
        b'\n' | b'\r' => Some(Key::Newline),
        0x11 => Some(Key::Quit),
        0x13 => Some(Key::Save),
        0x19 => Some(Key::Redo),
        0x1A => Some(Key::Undo),
        _ => None,
    }
}

/// The move of the letter that ends a sequence: an arrow, or an end of the line.
fn arrow(letter: u8) -> Option<Move>
    ensures { result ≡ arrow letter }
{
    match letter {
        b'A' => Some(Move::Up),
        b'B' => Some(Move::Down),
        b'C' => Some(Move::Right),
        b'D' => Some(Move::Left),
        b'H' => Some(Move::LineStart),
        b'F' => Some(Move::LineEnd),
        _ => None,
    }
}

/// The end of the document that a letter means with the control key.
fn document_end(letter: u8) -> Option<Move>
    ensures { result ≡ document_end letter }
{
    match letter {
        b'H' => Some(Move::DocStart),
        b'F' => Some(Move::DocEnd),
        _ => None,
    }
}

/// The key of `ESC [`, these bytes and this last one.
fn sequence_key(bytes: &[u8], last: u8) -> Option<Key>
    ensures { result ≡ sequence_key bytes.now last }
{
    if last == b'~' {
        numbered_key(bytes)
    } else if bytes == b"".as_slice() {
        arrow(last).map(Key::Move)
    } else if bytes == b"1;2".as_slice() {
        arrow(last).map(Key::Extend)
    } else if bytes == b"1;5".as_slice() {
        document_end(last).map(Key::Move)
    } else {
        None
    }
}

/// The key of `ESC [`, these bytes and `~`.
fn numbered_key(bytes: &[u8]) -> Option<Key>
    ensures { result ≡ numbered_key bytes.now }
{
    if bytes == b"1".as_slice() {
        Some(Key::Move(Move::LineStart))
    } else if bytes == b"3".as_slice() {
        Some(Key::DeleteForward)
    } else if bytes == b"4".as_slice() {
        Some(Key::Move(Move::LineEnd))
    } else {
        None
    }
}
