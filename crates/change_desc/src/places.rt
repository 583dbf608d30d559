ghost use Rattle.std.specs.Prelude.{◌≡◌, ◌≤◌};
ghost use Rattle.change_desc.specs.Places.{place_after};
ghost use Rattle.change_desc.specs.Positions.{is_negative};
ghost use Rattle.change_desc.specs.Sections.{counted, new_size, old_size};

use crate::desc::Desc;
use crate::map_mode::MapMode;
use crate::position_walker::PositionWalker;

impl Desc {
    /// Where a position of the old text goes, whatever was deleted around it (Reference Manual, ChangeDesc.mapPos).
    pub fn place_after(&self, pos: u32, side: i32) -> u32
        requires { pos ≤ old_size self.now }
        ensures value { result ≡ place_after self.now pos (is_negative side) }
        ensures inside { result ≤ new_size counted self.now }
    {
        self.map_pos(pos, side, MapMode::Simple).unwrap_or(0)
    }
}

impl<'a> PositionWalker<'a> {
    /// What `Desc::place_after` answers for a place of the old text that isn't less than the last one asked for.
    #[inline(always)]
    pub fn place_after(&mut self, pos: u32, side: i32) -> u32
        requires inside { pos ≤ old_size self.old.desc }
        requires ascending { self.old.reached ≤ pos }
        ensures value { result ≡ place_after self.old.desc pos (is_negative side) }
        ensures inside { result ≤ new_size counted self.old.desc }
        ensures walk { self.new ≡ record { desc = self.old.desc; reached = pos } }
    {
        self.map_pos(pos, side, MapMode::Simple).unwrap_or(0)
    }
}
