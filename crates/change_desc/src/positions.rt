ghost use Rattle.std.specs.Prelude.{MatchOption, ◌≢◌, true, ◌≡◌, ◌≤◌, ◌<◌, ◌^◌, Some};
ghost use Rattle.change_desc.specs.Sections.{counted, old_size, new_size};
ghost use Rattle.change_desc.specs.Steps.{GoesOn, StopsAt, LeavesLoss, DecidesLoss, loses};
ghost use Rattle.change_desc.specs.Positions.{moved, cuts, is_lost};

use crate::map_mode::MapMode;
use crate::section::Section;

impl Section<u32> {
    /// Where a position of its old text goes in its new text, unless it goes past the section.
    pub(crate) fn stop(&self, pos: u32, negative: bool) -> Option<u32>
        ensures { MatchOption result (GoesOn self.now pos negative) (λ place. StopsAt self.now pos negative place) }
    {
        match self {
            Section::Keep(count) => { if pos < *count { Some(pos) } else { None } }
            Section::Replace(count, len) => {
                if pos == 0 {
                    if negative || *count > 0 {
                        Some(0)
                    } else {
                        None
                    }
                } else if pos < *count {
                    Some(if negative { 0 } else { *len })
                } else {
                    None
                }
            }
        }
    }

    /// Whether a place of its old text loses what the mode tracks, unless the sections after it say so.
    pub(crate) fn loses(&self, pos: u32, mode: MapMode) -> Option<bool>
        ensures { MatchOption result (LeavesLoss self.now pos mode) (λ lost. DecidesLoss self.now pos mode lost) }
    {
        match self {
            Section::Keep(count) => { if pos < *count { Some(false) } else { None } }
            Section::Replace(count, _) => {
                if pos < *count {
                    Some(loses_inside(pos, mode))
                } else if pos == *count && pos > 0 {
                    loses_at_end(mode)
                } else {
                    None
                }
            }
        }
    }
}

/// Whether a place before the end of a replacement loses what the mode tracks.
fn loses_inside(pos: u32, mode: MapMode) -> bool
    ensures { result ≡ loses mode pos }
{
    match mode {
        MapMode::Simple => false,
        MapMode::TrackDel | MapMode::TrackBefore => pos > 0,
        MapMode::TrackAfter => true,
    }
}

/// Whether the end of a replacement does.
fn loses_at_end(mode: MapMode) -> Option<bool>
    ensures { MatchOption result (mode ≢ MapMode.TrackBefore) (λ lost. (lost ≡ true) × (mode ≡ MapMode.TrackBefore)) }
{
    match mode {
        MapMode::TrackBefore => Some(true),
        _ => None,
    }
}

/// Whether a place of the old text loses what the mode tracks.
pub(crate) fn is_lost(sections: &[Section<u32>], pos: u32, mode: MapMode) -> bool
    requires { pos ≤ old_size sections.now }
    ensures { result ≡ is_lost counted mode pos sections.now }
{
    let mut rest = pos;
    for section in sections {
        if let Some(lost) = section.loses(rest, mode) {
            return lost;
        }
        rest -= section.old_len();
    }
    false
}

/// Where a position of the old text goes: on the negative side of an insertion it stays before it.
#[inline(always)]
pub(crate) fn place(sections: &[Section<u32>], pos: u32, negative: bool) -> u32
    requires inside { pos ≤ old_size sections.now }
    requires fits { new_size counted sections.now < 2 ^ 32 }
    ensures { moved negative pos (cuts counted sections.now) ≡ Some result }
{
    let mut rest = pos;
    let mut new = 0;
    for section in sections {
        if let Some(place) = section.stop(rest, negative) {
            return new + place;
        }
        rest -= section.old_len();
        new += section.new_len();
    }
    new
}
