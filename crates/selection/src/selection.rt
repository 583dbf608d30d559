ghost use Rattle.std.specs.Prelude.{IfErr, IfOk, IsTrue, MatchOption, [], length, map, slice_get, true, ℕ, ◌<◌, ◌-◌, ◌^◌, ◌≡◌, ◌≢◌, ◌∷◌, ◌↔◌};
ghost use Rattle.change_desc.specs.Sections.{counted, new_size, old_size};
ghost use Rattle.selection.specs.Ranges.{moved_range};
ghost use Rattle.selection.specs.Selections.{IsSelection, LieIn, SelectionView, are_apart, first_outside, is_covered, is_covered_at, moved_selection, normal_form, selection_refusal, single_of};

use crate::error::SelectionError;
use crate::marked::{join_all, main_of, ranges_of, with_main};
use crate::range::{Range, Ranges};
use change_desc::{Desc, PositionWalker};
use smallvec::SmallVec;
use stable_order::sort_stably;
use std::alloc::{AllocError, Global};
use std::marker::Model;

/// A selection of a document: at least one range, in normal form, of which one is the main one (Reference Manual,
/// EditorSelection). Its ranges stand in order, and no two overlap, or touch where one is empty. Up to two ranges lie in
/// the selection itself, more on the heap.
pub struct Selection {
    ranges: Ranges,
    main: usize,
}

// Written by hand for proofs alone: those of what drops a selection then don't go into how its ranges are kept.
impl Drop for Selection {
    fn drop(self) {
        let Selection { ranges, main: _ } = self;
        drop(ranges);
    }
}

impl Model for Selection {
    ghost use Rattle.selection.specs.Selections.{IsSelection, SelectionView};

    ghost Value = { SelectionView };

    ghost view = { λ s. record { ranges = s.ranges.items; main = s.main } };

    ghost invariant = { λ s. IsSelection (record { ranges = s.ranges.items; main = s.main }) };
}

impl Selection {
    /// The normal form of these ranges, where the one with index `main`, counted from 0, is the main one. It is refused where
    /// there is no range, or where `main` is none of them. It covers the places that the ranges cover, and no others; its main
    /// range covers each place that the range with index `main` covers; and ranges in normal form stay as they are.
    pub fn create(alloc: Global, ranges: &[Range], main: usize) -> Result<Selection, SelectionError>
        ensures selection { IfOk result (λ selection. selection ≡ normal_form ranges.now main) }
        ensures covered { IfOk result (λ selection. (place : ℕ) → is_covered place selection.ranges ≡ is_covered place ranges.now) }
        ensures main { IfOk result (λ selection. (place : ℕ) → IsTrue (is_covered_at main place ranges.now) → IsTrue (is_covered_at selection.main place selection.ranges)) }
        ensures unchanged { IfOk result (λ selection. let given : SelectionView = record { ranges = ranges.now; main = main } in IsSelection given → selection ≡ given) }
        ensures inside { IfOk result (λ selection. (len : ℕ) → LieIn len ranges.now → LieIn len selection.ranges) }
        ensures accepted { IfOk result (λ _. selection_refusal ranges.now main ≡ None) }
        ensures refused { IfErr result (λ error. error ≢ SelectionError.NoMemory → selection_refusal ranges.now main ≡ Some error) }
    {
        if ranges.is_empty() {
            return Err(SelectionError::NoRanges);
        }
        if main >= ranges.len() {
            return Err(SelectionError::BadMain {
                main,
                count: ranges.len(),
            });
        }
        Ok(Selection::normal(alloc, ranges, main)?)
    }

    /// The normal form of ranges one of which is the main one.
    fn normal(alloc: Global, ranges: &[Range], main: usize) -> Result<Selection, AllocError>
        requires { main < length ranges.now }
        ensures selection { IfOk result (λ selection. selection ≡ normal_form ranges.now main) }
        ensures inside { IfOk result (λ selection. (len : ℕ) → LieIn len ranges.now → LieIn len selection.ranges) }
    {
        let mut marks = with_main(alloc, ranges, main)?;
        sort_stably(&mut marks)?;
        let joined = join_all(alloc, &marks)?;
        Ok(Selection {
            ranges: ranges_of(alloc, &joined)?,
            main: main_of(&joined),
        })
    }

    /// The selection of one range.
    pub fn single(alloc: Global, anchor: u32, head: u32) -> Result<Selection, AllocError>
        ensures { IfOk result (λ selection. selection ≡ record { ranges = record { anchor = anchor; head = head } ∷ []; main = 0 }) }
    {
        let mut ranges = SmallVec::new(alloc);
        ranges.push(Range { anchor, head })?;
        Ok(Selection { ranges, main: 0 })
    }

    /// The ranges, in order.
    pub fn ranges(&self) -> &[Range]
        ensures { result.now ≡ self.now.ranges }
    {
        &self.ranges
    }

    /// The index of the main range, counted from 0.
    pub fn main_index(&self) -> usize
        ensures value { result ≡ self.now.main }
        ensures within { result < length self.now.ranges }
    {
        self.main
    }

    /// The main range.
    pub fn main(&self) -> Range
        ensures { slice_get self.now.ranges self.now.main ≡ Some result }
    {
        self.ranges[self.main]
    }

    /// The main range alone (Reference Manual, EditorSelection.asSingle).
    #[inline(always)]
    pub fn as_single(&self) -> Result<Selection, AllocError>
        ensures selection { IfOk result (λ selection. selection ≡ single_of self.now) }
        ensures inside { IfOk result (λ selection. (len : ℕ) → LieIn len self.now.ranges → LieIn len selection.ranges) }
    {
        let mut ranges = SmallVec::new(*self.ranges.allocator());
        ranges.push(self.main())?;
        Ok(Selection { ranges, main: 0 })
    }

    /// The selection after changes to its document, in normal form (Reference Manual, EditorSelection.map).
    #[inline(always)]
    pub fn map(&self, changes: &Desc) -> Result<Selection, AllocError>
        requires { LieIn (old_size changes.now) self.now.ranges }
        ensures selection { IfOk result (λ selection. selection ≡ moved_selection changes.now self.now) }
        ensures inside { IfOk result (λ selection. LieIn (new_size counted changes.now) selection.ranges) }
    {
        let alloc = *self.ranges.allocator();
        let moved = moved_ranges(alloc, &self.ranges, changes)?;
        if moved.len() == 1 {
            return Ok(Selection {
                ranges: moved,
                main: 0,
            });
        }
        Selection::normal(alloc, &moved, self.main)
    }

    /// Whether both have the same ranges, and the same one of them is the main one (Reference Manual, EditorSelection.eq).
    pub fn same(&self, other: &Selection) -> bool
        ensures { IsTrue result ↔ (self.now ≡ other.now) }
    {
        self.main == other.main && same_ranges(&self.ranges, &other.ranges)
    }

    /// What may be relied on in each selection: no two neighbours meet, and one range is the main one. Takes no time.
    pub fn known(&self)
        ensures { IsSelection self.now }
    {
        let _ = &self.ranges;
    }

    /// That each place of its ranges fits 32 bits. Takes the time of the ranges, and no memory.
    pub fn known_places(&self)
        ensures { LieIn (2 ^ 32 - 1) self.now.ranges }
    {
        match first_outside(&self.ranges, u32::MAX) {
            None => {}
            Some(_) => unreachable!(),
        }
    }

    /// A copy.
    #[inline(always)]
    pub fn try_copy(&self) -> Result<Selection, AllocError>
        ensures { IfOk result (λ copy. copy ≡ self.now) }
    {
        let ranges = copied(*self.ranges.allocator(), &self.ranges)?;
        Ok(Selection {
            ranges,
            main: self.main,
        })
    }
}

/// A copy of some ranges. One alone, which most selections have, is pushed, which costs less than the call that copies several.
#[inline(always)]
fn copied(alloc: Global, ranges: &[Range]) -> Result<Ranges, AllocError>
    ensures { IfOk result (λ copies. copies.items ≡ ranges.now) }
{
    match ranges {
        [only] => {
            let mut copy = SmallVec::new(alloc);
            copy.push(*only)?;
            Ok(copy)
        }
        _ => SmallVec::from_slice(alloc, ranges),
    }
}

/// Whether both have the same ranges in the same order.
fn same_ranges(left: &[Range], right: &[Range]) -> bool
    ensures { IsTrue result ↔ (left.now ≡ right.now) }
{
    if left.len() != right.len() {
        return false;
    }
    for (a, b) in left.iter().zip(right) {
        if a.anchor != b.anchor || a.head != b.head {
            return false;
        }
    }
    true
}

/// The ranges, which stand in order, after changes to their document. Both of their ends are mapped in one pass over the
/// changes.
fn moved_ranges(alloc: Global, ranges: &[Range], changes: &Desc) -> Result<Ranges, AllocError>
    requires inside { LieIn (old_size changes.now) ranges.now }
    requires apart { are_apart ranges.now ≡ true }
    ensures { IfOk result (λ moved. moved.items ≡ map (moved_range changes.now) ranges.now) }
{
    let mut moved = SmallVec::with_capacity(alloc, ranges.len())?;
    let mut walker = PositionWalker::new(changes);
    for range in ranges {
        moved.push(range.map(&mut walker))?;
    }
    Ok(moved)
}

/// The greater end of the first range that ends past a document of `len` characters.
pub fn first_outside(ranges: &[Range], len: u32) -> Option<u32>
    ensures outside { result ≡ first_outside len ranges.now }
    ensures inside { MatchOption result (LieIn len ranges.now) (λ end. len < end) }
{
    for range in ranges {
        if range.to() > len {
            return Some(range.to());
        }
    }
    None
}
