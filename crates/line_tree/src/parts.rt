ghost use Rattle.std.specs.Prelude.{◌≡◌, ◌*◌, ◌+◌, ◌^◌, ◌<◌, ◌≤◌, length};
ghost use Rattle.line_tree.specs.Breaks.{count_breaks};
ghost use Rattle.line_tree.specs.Parts.{joined, HaveHeight};
ghost use Rattle.line_tree.specs.Places.{PartHoldsPlace, PartHoldsBreak};

use crate::text::Text;

/// A part of a text: where it stands, and how many breaks stand before it.
#[derive(Clone, Copy)]
pub(crate) struct PartAt {
    pub(crate) index: usize,
    pub(crate) from: u32,
    pub(crate) breaks: u32,
}

/// The first part that a place stands in, or at whose end it stands.
pub(crate) fn part_at(parts: &[Text], pos: u32) -> PartAt
    requires some { 0 < length parts.now }
    requires within { pos ≤ length (joined parts.now) }
    requires fits { length (joined parts.now) < 2 ^ 32 }
    ensures { PartHoldsPlace parts.now pos result.index result.from result.breaks }
{
    let mut from = 0;
    let mut breaks = 0;
    for (index, part) in parts.iter().enumerate() {
        if pos - from <= part.len() {
            return PartAt {
                index,
                from,
                breaks,
            };
        }
        from += part.len() + 1;
        breaks += part.breaks() + 1;
    }
    unreachable!()
}

/// The part that has the break after so many others, or at whose end it stands.
pub(crate) fn part_of_break(parts: &[Text], before: u32) -> PartAt
    requires within { before < count_breaks (joined parts.now) }
    requires fits { length (joined parts.now) < 2 ^ 32 }
    ensures { PartHoldsBreak parts.now before result.index result.from result.breaks }
{
    let mut from = 0;
    let mut breaks = 0;
    for (index, part) in parts.iter().enumerate() {
        if before - breaks <= part.breaks() {
            return PartAt {
                index,
                from,
                breaks,
            };
        }
        from += part.len() + 1;
        breaks += part.breaks() + 1;
    }
    unreachable!()
}

/// The length of the parts, with a break between each two.
pub(crate) fn len_of(parts: &[Text]) -> u32
    requires some { 0 < length parts.now }
    requires fits { length (joined parts.now) < 2 ^ 32 }
    ensures { result ≡ length (joined parts.now) }
{
    let mut len = 0u64;
    for part in parts {
        len += u64::from(part.len()) + 1;
    }
    (len - 1) as u32
}

/// How many breaks they have, with those between them.
pub(crate) fn breaks_of(parts: &[Text], height: u32) -> u32
    requires some { 0 < length parts.now }
    requires same { HaveHeight height parts.now }
    requires fits { length (joined parts.now) < 2 ^ 32 }
    ensures value { result ≡ count_breaks (joined parts.now) }
    ensures tall { length parts.now * 2 ^ height ≤ result + 1 }
{
    let mut breaks = 0u64;
    for part in parts {
        breaks += u64::from(part.breaks()) + 1;
    }
    (breaks - 1) as u32
}
