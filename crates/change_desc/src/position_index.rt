ghost use Rattle.std.specs.Prelude.{All, IfOk, ◌≡◌};
ghost use Rattle.change_desc.specs.Index.{ArePassed};
ghost use Rattle.change_desc.specs.Sections.{IsSet, counted};
ghost use Rattle.change_desc.specs.Walker.{IsPassed};

use crate::desc::Desc;
use crate::passed::Passed;
use crate::position_walker::PositionWalker;
use crate::section::Section;
use std::alloc::{AllocError, Global};
use std::marker::Model;

/// The greatest number of sections for which nothing is kept: a walk goes over so few as fast as a search finds a place.
const FEW_SECTIONS: usize = 4;

/// Where walks over a description may begin, so that each begins close to its first place: a binary search finds where. It takes
/// memory for each section where there are more than four, else none. Contracts see the description.
#[derive(Drop)]
pub struct PositionIndex<'a> {
    sections: &'a [Section<u32>],
    /// The sections that end before each one; none where they are few.
    beginnings: Vec<Passed>,
}

impl<'a> Model for PositionIndex<'a> {
    ghost use Rattle.std.specs.Prelude.{List, ℕ};
    ghost use Rattle.change_desc.specs.declared.section.Section.{Section};
    ghost use Rattle.change_desc.specs.Index.{IsIndex};

    ghost Value = { List (Section ℕ) };

    ghost view = { λ x. x.sections.now };

    ghost invariant = { λ x. IsIndex x.sections.now x.beginnings.items };
}

impl<'a> PositionIndex<'a> {
    /// The index of a description. `Err`: out of memory.
    #[inline(always)]
    pub fn new(alloc: Global, desc: &'a Desc) -> Result<PositionIndex<'a>, AllocError>
        ensures { IfOk result (λ index. index ≡ desc.now) }
    {
        let sections = desc.sections.as_slice();
        let beginnings = beginnings(alloc, sections)?;
        Ok(PositionIndex {
            sections,
            beginnings,
        })
    }

    /// A walk from a place of the old text on, in characters.
    pub fn walk_from(&self, place: u32) -> PositionWalker<'a>
        ensures { result ≡ record { desc = self.now; reached = place } }
    {
        PositionWalker {
            sections: self.sections,
            passed: last_before(self.sections, self.beginnings.as_slice(), place),
            reached: place,
        }
    }
}

/// For each section of a description, the sections that stand before it; none where they are few.
fn beginnings(alloc: Global, sections: &[Section<u32>]) -> Result<Vec<Passed>, AllocError>
    requires { IsSet counted sections.now }
    ensures { IfOk result (λ all. All (ArePassed sections.now) all.items) }
{
    if sections.len() <= FEW_SECTIONS {
        return Ok(Vec::new(alloc));
    }
    let mut all = Vec::with_capacity(alloc, sections.len())?;
    let mut passed = Passed {
        count: 0,
        old: 0,
        new: 0,
    };
    for section in sections {
        all.push(passed)?;
        passed = passed.beyond(section);
    }
    Ok(all)
}

/// Of some beginnings of a description, in order, the last that ends before a place, or the empty one.
fn last_before(sections: &[Section<u32>], beginnings: &[Passed], place: u32) -> Passed
    requires is_set { IsSet counted sections.now }
    requires are_passed { All (ArePassed sections.now) beginnings.now }
    ensures { IsPassed sections.now result place }
{
    let mut last = Passed {
        count: 0,
        old: 0,
        new: 0,
    };
    let mut low = 0;
    let mut high = beginnings.len();
    while low < high {
        let middle = low + (high - low) / 2;
        if beginnings[middle].old < place {
            last = beginnings[middle];
            low = middle + 1;
        } else {
            high = middle;
        }
    }
    last
}
