ghost use Rattle.std.specs.Prelude.{IfOk, false, true, ◌≡◌, ◌≤◌};
ghost use Rattle.change_desc.specs.Places.{place_after};
ghost use Rattle.change_desc.specs.Positions.{map_pos};
ghost use Rattle.change_desc.specs.Sections.{counted, old_size};

use change_desc::{Desc, MapMode, PositionIndex};
use std::alloc::{AllocError, Global};
use std::marker::Model;

/// Maps the values of kept effects over changes: it looks places up in an index of the changes, so that a value takes the
/// logarithm of their number. It takes memory for each section where there are more than four, else none. Contracts see the
/// description.
#[derive(Drop)]
pub struct ValueMapper<'a> {
    len: u32,
    index: PositionIndex<'a>,
}

impl<'a> Model for ValueMapper<'a> {
    ghost use Rattle.std.specs.Prelude.{List, ℕ, ◌≡◌};
    ghost use Rattle.change_desc.specs.declared.section.Section.{Section};
    ghost use Rattle.change_desc.specs.Sections.{old_size};

    ghost Value = { List (Section ℕ) };

    ghost view = { λ m. m.index };

    ghost invariant = { λ m. m.len ≡ old_size m.index };
}

impl<'a> ValueMapper<'a> {
    /// The mapper over these changes. `Err`: out of memory.
    pub fn new(alloc: Global, changes: &'a Desc) -> Result<ValueMapper<'a>, AllocError>
        ensures { IfOk result (λ mapper. mapper ≡ changes.now) }
    {
        let index = PositionIndex::new(alloc, changes)?;
        Ok(ValueMapper {
            len: changes.len(),
            index,
        })
    }

    /// How many characters the old document has.
    pub(crate) fn len(&self) -> u32
        ensures { result ≡ old_size self.now }
    {
        self.len
    }

    /// Where a position of the old document goes, after what is inserted there, unless it lies strictly inside what is
    /// replaced.
    pub(crate) fn position(&self, position: u32) -> Option<u32>
        requires { position ≤ old_size self.now }
        ensures { result ≡ map_pos counted self.now position false MapMode.TrackDel }
    {
        self.index
            .walk_from(position)
            .map_pos(position, 1, MapMode::TrackDel)
    }

    /// Where a position goes as the start of a range: after what is inserted there.
    pub(crate) fn start(&self, position: u32) -> u32
        requires { position ≤ old_size self.now }
        ensures { result ≡ place_after self.now position false }
    {
        self.index.walk_from(position).place_after(position, 1)
    }

    /// Where a position goes as the end of a range: before what is inserted there.
    pub(crate) fn end(&self, position: u32) -> u32
        requires { position ≤ old_size self.now }
        ensures { result ≡ place_after self.now position true }
    {
        self.index.walk_from(position).place_after(position, -1)
    }
}
