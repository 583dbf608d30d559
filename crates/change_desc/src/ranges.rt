ghost use Rattle.std.specs.Prelude.{IfOk, OnOk, ◌≡◌, ◌<◌, ◌^◌};
ghost use Rattle.change_desc.specs.Sections.{counted, new_size, old_size};
ghost use Rattle.change_desc.specs.Steps.{Unites};
ghost use Rattle.change_desc.specs.Ranges.{changes_nothing, replaced, touches, united};

use crate::changed_range::{ChangedRange, ChangedRanges};
use crate::section::Section;
use crate::touch::Touch;
use smallvec::SmallVec;
use std::alloc::{AllocError, Global};

/// Whether all is kept.
pub(crate) fn changes_nothing(sections: &[Section<u32>]) -> bool
    ensures { result ≡ changes_nothing sections.now }
{
    for section in sections {
        if let Section::Replace(_, _) = section {
            return false;
        }
    }
    true
}

/// How the replaced ranges meet a range of the old text.
pub(crate) fn touches(sections: &[Section<u32>], from: u32, to: u32) -> Touch
    requires old_fits { old_size sections.now < 2 ^ 32 }
    requires new_fits { new_size counted sections.now < 2 ^ 32 }
    ensures { result ≡ touches from to (replaced sections.now) }
{
    let mut a = 0;
    let mut b = 0;
    for section in sections {
        if let Some(range) = section.range(a, b) {
            if range.meets(from, to) {
                return range.touch(from, to);
            }
        }
        a += section.old_len();
        b += section.new_len();
    }
    Touch::No
}

/// The replaced ranges, each by itself.
pub(crate) fn individual_ranges(
    alloc: Global,
    sections: &[Section<u32>],
) -> Result<ChangedRanges, AllocError>
    requires old_fits { old_size sections.now < 2 ^ 32 }
    requires new_fits { new_size counted sections.now < 2 ^ 32 }
    ensures { IfOk result (λ ranges. ranges.items ≡ replaced sections.now) }
{
    let mut ranges = SmallVec::new(alloc);
    let mut a = 0;
    let mut b = 0;
    for section in sections {
        if let Some(range) = section.range(a, b) {
            ranges.push(range)?;
        }
        a += section.old_len();
        b += section.new_len();
    }
    Ok(ranges)
}

/// Puts a range after those that were done and the one that may still grow; what may still grow now.
fn unite(
    ranges: &mut ChangedRanges,
    growing: Option<ChangedRange>,
    range: ChangedRange,
) -> Result<ChangedRange, AllocError>
    ensures { IfOk result (λ next. Unites ranges.old.items ranges.new.items growing range next) }
{
    match growing {
        None => Ok(range),
        Some(before) => {
            if before.to_a == range.from_a {
                return Ok(before.through(range));
            }
            ranges.push(before)?;
            Ok(range)
        }
    }
}

/// The replaced ranges, those that touch as one.
pub(crate) fn united_ranges(
    alloc: Global,
    sections: &[Section<u32>],
) -> Result<ChangedRanges, AllocError>
    requires old_fits { old_size sections.now < 2 ^ 32 }
    requires new_fits { new_size counted sections.now < 2 ^ 32 }
    ensures { IfOk result (λ ranges. ranges.items ≡ united (replaced sections.now)) }
{
    let mut ranges = SmallVec::new(alloc);
    let mut growing = None;
    let mut a = 0;
    let mut b = 0;
    for section in sections {
        if let Some(range) = section.range(a, b) {
            growing = Some(unite(&mut ranges, growing, range)?);
        }
        a += section.old_len();
        b += section.new_len();
    }
    if let Some(range) = growing {
        ranges.push(range)?;
    }
    Ok(ranges)
}
