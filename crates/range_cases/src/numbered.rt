ghost use Rattle.change_desc.specs.declared.map_mode.MapMode.TheVariants as modes;
ghost use Rattle.range_cases.specs.declared.numbered.Numbered.{Numbered};

use change_desc::{Desc, MapMode, Section};
use range_set::{RangeSet, RangeValue, Ranged};
use std::alloc::{AllocError, Global};

/// A value with two sides and a number that tells it apart. A copy is refused where the number is over `most`. Its range stands for
/// what it covers where `is_point`.
#[derive(Clone, Copy, Debug, PartialEq, Eq, Drop)]
pub(crate) struct Numbered {
    pub(crate) start: i32,
    pub(crate) end: i32,
    pub(crate) number: u32,
    pub(crate) most: u32,
    pub(crate) is_point: bool,
}

impl RangeValue for Numbered {
    ghost rules = { record { start_side = λ (v : Numbered). v.start; end_side = λ v. v.end; mode = λ _. modes.TrackDel; is_point = λ v. v.is_point } };

    fn start_side(&self) -> i32 {
        self.start
    }

    fn end_side(&self) -> i32 {
        self.end
    }

    fn mode(&self) -> MapMode {
        MapMode::TrackDel
    }

    fn is_point(&self) -> bool {
        self.is_point
    }

    fn same(&self, other: &Numbered) -> bool {
        self.start == other.start
            && self.end == other.end
            && self.number == other.number
            && self.most == other.most
            && self.is_point == other.is_point
    }

    fn try_copy(&self, _alloc: Global) -> Result<Numbered, AllocError> {
        if self.number > self.most {
            return Err(AllocError);
        }
        Ok(*self)
    }
}

/// A range as plain data: its ends, the two sides of its value, and its number.
pub(crate) type Row = (u32, u32, i32, i32, u32);

/// The ranges of some rows, whose values are copied.
pub(crate) fn ranges_of(alloc: Global, rows: &[Row]) -> Result<Vec<Ranged<Numbered>>, AllocError> {
    let mut ranges = Vec::new(alloc);
    for (from, to, start, end, number) in rows {
        ranges.push(Ranged {
            from: *from,
            to: *to,
            value: Numbered {
                start: *start,
                end: *end,
                number: *number,
                most: u32::MAX,
                is_point: true,
            },
        })?;
    }
    Ok(ranges)
}

/// The description of some sections.
pub(crate) fn described(alloc: Global, sections: &[Section<u32>]) -> Result<Desc, AllocError> {
    let mut desc = Desc::new(alloc);
    for section in sections {
        let fits = desc.len() < 2_000_000_000
            && desc.new_len() < 2_000_000_000
            && section.old_len() < 2_000_000_000
            && section.new_len() < 2_000_000_000;
        if fits {
            desc.push(*section)?;
        }
    }
    Ok(desc)
}

/// A set mapped over changes: `None` where it can't be, or out of memory.
pub(crate) fn mapped(
    alloc: Global,
    set: &RangeSet<Numbered>,
    sections: &[Section<u32>],
) -> Result<Option<RangeSet<Numbered>>, AllocError> {
    let changes = described(alloc, sections)?;
    if !set.ends_within(changes.len()) {
        return Ok(None);
    }
    Ok(set.map(&changes).ok())
}

/// The first and the last number of ranges that may be copied, twice.
pub(crate) type Copied = [(u32, u32); 2];

/// Whether a number is among these.
pub(crate) fn is_among(copied: &Copied, number: u32) -> bool {
    copied
        .iter()
        .any(|(first, last)| *first <= number && number <= *last)
}

/// Whether the set has ranges with these ends and numbers, in this order, and no others.
pub(crate) fn shows(set: &RangeSet<Numbered>, want: &[(u32, u32, u32)]) -> bool {
    if set.len() != want.len() {
        return false;
    }
    let mut ranges = set.iter();
    for (from, to, number) in want {
        match ranges.next() {
            Some(range) => {
                if range.from != *from || range.to != *to || range.value.number != *number {
                    return false;
                }
            }
            None => return false,
        }
    }
    true
}
