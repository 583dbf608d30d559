ghost use Rattle.std.specs.Prelude.{◌≡◌, ◌≤◌, IfSome};
ghost use Rattle.change_desc.specs.Positions.{is_negative, map_pos};
ghost use Rattle.change_desc.specs.Sections.{counted, old_size, new_size};

use crate::desc::Desc;
use crate::map_mode::MapMode;
use crate::passed::Passed;
use crate::positions::{is_lost, place};
use crate::section::Section;
use std::marker::Model;

/// Maps ascending places of the old text, of which some may be equal, in one pass over a description: all together it
/// takes the time of the description and of the places, where `Desc::map_pos` takes that of the description for each place. It takes no memory.
#[derive(Drop)]
pub struct PositionWalker<'a> {
    pub(crate) sections: &'a [Section<u32>],
    pub(crate) passed: Passed,
    pub(crate) reached: u32,
}

impl<'a> Model for PositionWalker<'a> {
    ghost use Rattle.change_desc.specs.Walker.{Walk, IsWalk};

    ghost Value = { Walk };

    ghost view = { λ w. record { desc = w.sections.now; reached = w.reached } };

    ghost invariant = { λ w. IsWalk w.sections.now w.passed w.reached };
}

impl<'a> PositionWalker<'a> {
    /// A walk that begins at the start of the old text.
    pub fn new(desc: &'a Desc) -> PositionWalker<'a>
        ensures { result ≡ record { desc = desc.now; reached = 0 } }
    {
        PositionWalker {
            sections: desc.sections.as_slice(),
            passed: Passed {
                count: 0,
                old: 0,
                new: 0,
            },
            reached: 0,
        }
    }

    /// What `Desc::map_pos` answers for a place of the old text, in characters, that isn't less than the last one asked for
    /// (Reference Manual, ChangeDesc.mapPos).
    #[inline(always)]
    pub fn map_pos(&mut self, pos: u32, side: i32, mode: MapMode) -> Option<u32>
        requires inside { pos ≤ old_size self.old.desc }
        requires ascending { self.old.reached ≤ pos }
        ensures value { result ≡ map_pos counted self.old.desc pos (is_negative side) mode }
        ensures inside { IfSome result (λ place. place ≤ new_size counted self.old.desc) }
        ensures walk { self.new ≡ record { desc = self.old.desc; reached = pos } }
    {
        self.passed = self.passed.up_to(self.sections, pos);
        self.reached = pos;
        let rest = self.passed.rest(self.sections);
        let left = pos - self.passed.old;
        if is_lost(rest, left, mode) {
            None
        } else {
            Some(self.passed.new + place(rest, left, side < 0))
        }
    }
}
