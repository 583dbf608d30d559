ghost use Rattle.std.specs.Prelude.{◌≡◌, ◌<◌, ◌≤◌, ◌+◌, ◌-◌, ◌∷◌, [], ℕ, List, length, slice_index_or};
ghost use Rattle.change_desc.specs.declared.section.Section.TheVariants.{Replace};
ghost use Rattle.change_desc.specs.Columns.{along_old, follows, times};
ghost use Rattle.change_desc.specs.Sections.{IsSet, Sections, spelled, old_of, new_of, old_size, new_size};
ghost use Rattle.change_set.specs.Protected.{Apart, HasEnded};
ghost use Rattle.change_set.specs.Protection.{given_len, half_from, pieced, taking};

use crate::filter::Filter;
use crate::half::Half;
use crate::inserted_text::InsertedText;
use crate::protection::{ended, is_inside, run_from};
use change_desc::Section;

/// How many characters a run of deleted ones gives to the new text of a half: those of its text, or those that are kept.
fn run_len(is_taken: bool, count: u32, text_len: u32) -> u32
    ensures { result ≡ given_len is_taken count text_len }
{
    if is_taken { text_len } else { count }
}

/// How long the new text of a half is over the deleted characters of a section from one place to another, where its text is
/// counted already. So many ranges end at or before the first place; how many end at or before the second is answered first.
fn runs_len(by: Filter, known: usize, from: u32, end: u32) -> (usize, u64)
    requires order { from ≤ end }
    requires within { end ≤ by.len }
    requires ended { HasEnded by.ranges.now known from }
    ensures ended { HasEnded by.entry.ranges.now result.0 end }
    ensures few { result.1 ≤ end - from }
    ensures sum { (s : Sections) → result.1 + new_size spelled (pieced (taking by.entry.half by.entry.ranges.now by.entry.len) end (along_old spelled s)) ≡ new_size spelled (pieced (taking by.entry.half by.entry.ranges.now by.entry.len) from (times spelled (end - from) follows (along_old spelled s))) }
{
    let mut pos = from;
    let mut count = known;
    let mut sum: u64 = 0;
    'runs: while pos < end {
        count = ended(by.ranges, count, pos);
        let run = run_from(by.ranges, count, by.len, pos, end);
        let is_taken = by.half.takes(run.is_protected);
        sum += u64::from(run_len(is_taken, run.to - pos, 0));
        pos = run.to;
    }
    (count, sum)
}

/// The same over a section that deletes characters, with its text.
fn deletion_len(by: Filter, known: usize, at: u32, gone: u32, text: &InsertedText) -> (usize, u64)
    requires some { 0 < gone }
    requires within { at + gone ≤ by.len }
    requires ended { HasEnded by.ranges.now known at }
    requires next { known < length by.ranges.now → at < (slice_index_or by.ranges.now known (0, 0)).1 }
    ensures ended { HasEnded by.entry.ranges.now result.0 (at + gone) }
    ensures few { result.1 ≤ gone + length text.now }
    ensures sum { (s : Sections) → result.1 + new_size spelled (pieced (taking by.entry.half by.entry.ranges.now by.entry.len) (at + gone) (along_old spelled s)) ≡ new_size spelled (pieced (taking by.entry.half by.entry.ranges.now by.entry.len) at (along_old spelled (Replace gone text.now ∷ s))) }
{
    let end = at + gone;
    let run = run_from(by.ranges, known, by.len, at, end);
    let is_taken = by.half.takes(run.is_protected);
    let first = run_len(is_taken, run.to - at, text.len());
    let (reached, rest) = runs_len(by, known, run.to, end);
    (reached, u64::from(first) + rest)
}

/// The same over a section.
fn section_len(by: Filter, known: usize, at: u32, section: &Section<InsertedText>) -> (usize, u64)
    requires within { at + old_of section.now ≤ by.len }
    requires apart { Apart 0 by.ranges.now }
    requires ended { HasEnded by.ranges.now known at }
    ensures ended { HasEnded by.entry.ranges.now result.0 (at + old_of section.now) }
    ensures few { result.1 ≤ old_of section.now + new_of spelled section.now }
    ensures sum { (s : Sections) → result.1 + new_size spelled (pieced (taking by.entry.half by.entry.ranges.now by.entry.len) (at + old_of section.now) (along_old spelled s)) ≡ new_size spelled (pieced (taking by.entry.half by.entry.ranges.now by.entry.len) at (along_old spelled (section.now ∷ s))) }
{
    let count = ended(by.ranges, known, at);
    match section {
        Section::Keep(kept) => (count, u64::from(*kept)),
        Section::Replace(gone, text) => {
            if *gone > 0 {
                return deletion_len(by, count, at, *gone, text);
            }
            if by.half.takes(is_inside(by.ranges, count, by.len, at)) {
                (count, u64::from(text.len()))
            } else {
                (count, 0)
            }
        }
    }
}

/// How long the new text of one half of some sections over a document of `len` characters is, of which some ranges are
/// protected.
pub(crate) fn half_len(
    half: Half,
    ranges: &[(u32, u32)],
    len: u32,
    sections: &[Section<InsertedText>],
) -> u64
    requires apart { Apart 0 ranges.now }
    requires len { old_size sections.now ≡ len }
    requires is_set { IsSet spelled sections.now }
    ensures { result ≡ new_size spelled (half_from (taking half ranges.now len) [] 0 sections.now) }
{
    let by = Filter { half, ranges, len };
    let mut sum: u64 = 0;
    let mut at = 0;
    let mut known = 0;
    for section in sections {
        let (reached, added) = section_len(by, known, at, section);
        sum += added;
        known = reached;
        at += section.old_len();
    }
    sum
}
