ghost use Rattle.std.specs.Prelude.{◌≡◌, ◌≢◌, ◌↔◌, ◌+◌, ◌-◌, ◌≤◌, ◌<◌, ◌^◌, true, false, [], None, Some, length, IfOk, IfErr, IsTrue, filter, option_map, slice_get, map};
ghost use Rattle.std.specs.List.{list_any};
ghost use Rattle.change_desc.specs.Sections.{counted, new_size, old_size};
ghost use Rattle.range_set.specs.Order.{first_fault};
ghost use Rattle.range_set.specs.Mapping.{is_turned, map_ranges, most_mapped, EndWithin};
ghost use Rattle.range_set.specs.Points.{points_of};
ghost use Rattle.range_set.specs.PrivateChunks.{AreChunks, AreGroupsOf, flat, greatest_end, lengthen, shift, spread};
ghost use Rattle.range_set.specs.PrivatePages.{ArePages, laid};
ghost use Rattle.range_set.specs.Seen.{seen};
ghost use Rattle.range_set.specs.Updating.{AnswersAs, updated, overlaps};

use crate::between::Between;
use crate::chunk::Placed;
use crate::chunk_builder::ChunkBuilder;
use crate::chunk_iter::ChunkIter;
use crate::group_builder::GroupBuilder;
use crate::group_list::GroupList;
use crate::iter::{Iter, same_ranges};
use crate::moving::mapped_groups;
use crate::opening::opened;
use crate::page::PlacedPage;
use crate::points::Points;
use crate::range_error::RangeError;
use crate::range_ref::RangeRef;
use crate::range_value::RangeValue;
use crate::ranged::{Findings, Ranged, fault_in, look_through};
use crate::updating::{added_groups, updated_chunks};
use change_desc::Desc;
use std::alloc::{AllocError, Global};
use std::marker::{Brand, Model};
use std::sync::ledger::{Blank, Ledger};
use steps::Steps;

/// A set of ranges in order (Reference Manual: RangeSet): by their starts, then by their start sides, then as they were
/// given. It is a list of pages of groups of chunks; sets share all three, and copies of one share the list.
#[derive(Drop)]
pub struct RangeSet<T: RangeValue> {
    groups: GroupList<T>,
    len: usize,
}

impl<T: RangeValue> Model for RangeSet<T> {
    ghost use Rattle.std.specs.Prelude.{List};
    ghost use Rattle.range_set.specs.declared.ranged.Ranged.{Ranged};
    ghost use Rattle.range_set.specs.PrivateChunks.{IsRangeSet, flat, spread};

    ghost Value = { List (Ranged T) };

    ghost view = { λ s. flat (spread s.groups) };

    ghost invariant = { λ s. IsRangeSet T.rules s.groups s.len };
}

impl<T: RangeValue> RangeSet<T> {
    /// The set without ranges (RangeSet.empty).
    pub fn empty(alloc: Global) -> RangeSet<T>
        ensures { result ≡ [] }
    {
        RangeSet {
            groups: GroupList::empty(alloc),
            len: 0,
        }
    }

    /// The set of these ranges, which stand in order (RangeSet.of); it copies no value. `Err`: the first range that ends
    /// before it starts or belongs before the one before it, the former where it does both; or out of memory.
    pub fn of(ranges: Vec<Ranged<T>>) -> Result<RangeSet<T>, RangeError>
        ensures set { IfOk result (λ s. s ≡ ranges.items) }
        ensures in_order { IfOk result (λ s. first_fault T.rules ranges.items ≡ None) }
        ensures refused { IfErr result (λ e. e ≢ RangeError.NoMemory → first_fault T.rules ranges.items ≡ Some e) }
    {
        let Findings { fault, longest } = look_through(ranges.as_slice());
        match fault {
            None => Ok(set_of(ranges, longest)?),
            Some(fault) => Err(fault),
        }
    }

    /// The ranges in order (RangeSet.iter).
    pub fn iter(&self) -> Iter<'_, T>
        ensures { result ≡ self.now }
    {
        Iter::over(self.groups.groups())
    }

    /// The ranges that overlap or touch those from the place `from` to the place `to`, in order (RangeSet.between).
    pub fn between(&self, from: u32, to: u32) -> Between<'_, T>
        ensures { result ≡ filter (overlaps from to) self.now }
    {
        Between::among(Iter::over(self.groups.groups()), from, to)
    }

    /// The ranges that stand for what they cover, in order. Pages, groups and chunks without one are passed over whole; of the others
    /// each range is looked at.
    pub fn points(&self) -> Points<'_, T>
        ensures { result ≡ points_of T.rules self.now }
    {
        Points::among(self.iter())
    }

    /// How many ranges there are (RangeSet.size).
    pub fn len(&self) -> usize
        ensures { result ≡ length self.now }
    {
        self.len
    }

    /// What may be relied on in a set: it stands in order, and both ends of each range fit u32. It does nothing when it runs.
    pub fn known(&self)
        ensures order { first_fault T.rules self.now ≡ None }
        ensures fit { EndWithin 4294967295 self.now }
    {
        let _ = &self.groups;
    }

    /// Whether both have the same ranges with equal values (RangeSet.eq). Their last ranges are looked at first, since a change
    /// that comes before them moves them.
    pub fn same(&self, other: &RangeSet<T>) -> bool
        ensures { IsTrue result ↔ (self.now ≡ other.now) }
    {
        self.len == other.len
            && same_last(last_of(self.groups.pages()), last_of(other.groups.pages()))
            && same_ranges(
                ChunkIter::over(self.groups.groups()),
                ChunkIter::over(other.groups.groups()),
            )
    }

    /// The same set once more: both share one list of pages. `Err`: no further owner can be counted.
    pub fn try_copy(&self) -> Result<RangeSet<T>, AllocError>
        ensures { IfOk result (λ s. s ≡ self.now) }
    {
        Ok(RangeSet {
            groups: self.groups.share()?,
            len: self.len,
        })
    }

    /// The ranges that `keep` allows and those of `add`, the old ones first where they tie (RangeSet.update). `keep` is asked
    /// of ranges as `iter` lends them, of some twice. A chunk whose ranges it allows, and among which no range of `add`
    /// belongs, is shared, unless it has few ranges and stands after ranges that don't fill a chunk, or a range of `add`
    /// begins after it and by the end of the next chunk; of the others the values that stay are copied. Groups
    /// and pages are made anew. `Err`: the first range of `add` that ends before it starts or belongs before the one before it;
    /// or out of memory.
    pub fn update<F: Fn(&RangeRef<'_, T>) -> bool>(
        &self,
        add: Vec<Ranged<T>>,
        keep: F,
    ) -> Result<RangeSet<T>, RangeError>
        requires { F.IsAlwaysCallable keep }
        ensures set { IfOk result (λ s. (p : _) → AnswersAs F.Fn keep p → s ≡ updated T.rules p self.now add.items) }
        ensures in_order { IfOk result (λ s. first_fault T.rules add.items ≡ None) }
        ensures refused { IfErr result (λ e. e ≢ RangeError.NoMemory → first_fault T.rules add.items ≡ Some e) }
    {
        self.check_added(add.as_slice())?;
        let alloc = self.groups.alloc();
        let chunks = opened(alloc, self.groups.groups())?;
        let chunks = updated_chunks(alloc, chunks.as_slice(), add, &keep)?;
        let (groups, len) = in_groups(alloc, chunks)?;
        Ok(RangeSet { groups, len })
    }

    /// The ranges and those of `add`, the old ones first where they tie (RangeSet.update without a filter). Groups of which each
    /// range begins before the first of `add`, or after the last one, are shared and not looked at further, but for one that
    /// what is added joins; whole pages of such groups are shared as pages, and of the chunks of the other groups all but those among
    /// which `add` belongs and one on either side. `Err`: the first range of `add` that ends before it starts or belongs before the
    /// one before it; or out of memory.
    pub fn with_added(&self, add: Vec<Ranged<T>>) -> Result<RangeSet<T>, RangeError>
        ensures set { IfOk result (λ s. s ≡ updated T.rules (λ _. true) self.now add.items) }
        ensures in_order { IfOk result (λ s. first_fault T.rules add.items ≡ None) }
        ensures refused { IfErr result (λ e. e ≢ RangeError.NoMemory → first_fault T.rules add.items ≡ Some e) }
    {
        self.check_added(add.as_slice())?;
        if add.is_empty() {
            // The proof takes from this line that the ranges stand in order.
            self.known();
            return Ok(self.try_copy()?);
        }
        let alloc = self.groups.alloc();
        let (groups, len) = added_groups(alloc, self.groups.groups(), add)?;
        Ok(RangeSet { groups, len })
    }

    /// Whether ranges can be added: `Err` with their first fault, or where as many can't be counted, so that they find no room.
    #[inline(always)]
    fn check_added(&self, add: &[Ranged<T>]) -> Result<(), RangeError>
        ensures in_order { IfOk result (λ _. first_fault T.rules add.now ≡ None) }
        ensures room { IfOk result (λ _. length self.now + length add.now < 2 ^ 64) }
        ensures refused { IfErr result (λ e. e ≢ RangeError.NoMemory → first_fault T.rules add.now ≡ Some e) }
    {
        match fault_in(add) {
            Some(fault) => Err(fault),
            None => match self.len.checked_add(add.len()) {
                Some(_) => Ok(()),
                None => Err(RangeError::NoMemory),
            },
        }
    }

    /// Whether each range lies in a document of `len` characters.
    pub fn ends_within(&self, len: u32) -> bool
        ensures { IsTrue result ↔ EndWithin len self.now }
    {
        pages_end_within(self.groups.pages(), len)
    }

    /// The set over the new document of some changes (RangeSet.map): each range is moved or dropped, and what stays is
    /// sorted anew. `Err`: out of memory.
    pub fn map(&self, changes: &Desc) -> Result<RangeSet<T>, AllocError>
        requires { EndWithin (old_size changes.now) self.now }
        ensures set { IfOk result (λ s. s ≡ map_ranges T.rules changes.now self.now) }
        ensures inside { IfOk result (λ s. EndWithin (new_size counted changes.now) s) }
    {
        map_uncounted::<T, Brand>(self, changes, Blank::new(1))
    }

    /// What `map` gives. A chunk whose hull meets no Replace, and in which no empty range has an end side less than its start
    /// side, is only moved, and shared; so is a group for which this holds, as a whole, unless it and the chunks of opened groups
    /// before it fill at most three quarters of one. Pages of such groups are shared as pages, unless a page becomes one with groups
    /// before it. Each range of the other chunks raises `mapped` by one, and its value is copied, unless it is the only one of its chunk,
    /// no Replace meets its start, and it is longer than 256 characters after the changes: then its chunk is shared. One that is longer
    /// than 4,096 characters before them is the only one of its group, which is shared if no Replace meets its start and it is so after
    /// them too; else its value is copied. `Err`: out of memory.
    pub fn map_steps<L: Ledger>(
        &self,
        changes: &Desc,
        mapped: &mut Steps<L>,
    ) -> Result<RangeSet<T>, AllocError>
        requires { EndWithin (old_size changes.now) self.now }
        ensures set { IfOk result (λ s. s ≡ map_ranges T.rules changes.now self.now) }
        ensures inside { IfOk result (λ s. EndWithin (new_size counted changes.now) s) }
        ensures cost { mapped.new ≤ mapped.old + most_mapped T.rules changes.now self.now }
    {
        let alloc = self.groups.alloc();
        if self.len() == 0 {
            return Ok(RangeSet::empty(alloc));
        }
        if changes.is_empty() && none_turned(self.groups.pages()) {
            return self.try_copy();
        }
        let (groups, len) = mapped_groups(alloc, self.groups.groups(), changes, mapped)?;
        Ok(RangeSet { groups, len })
    }
}

/// A set mapped with a counter of its own.
fn map_uncounted<T: RangeValue, L: Ledger>(
    set: &RangeSet<T>,
    changes: &Desc,
    blank: Blank,
) -> Result<RangeSet<T>, AllocError>
    requires name { blank.name ≡ L.name }
    requires parts { blank.parts ≡ L.parts }
    requires some { 0 < blank.parts }
    requires inside { EndWithin (old_size changes.now) set.now }
    ensures set { IfOk result (λ s. s ≡ map_ranges T.rules changes.now set.now) }
    ensures inside { IfOk result (λ s. EndWithin (new_size counted changes.now) s) }
{
    let mut mapped: Steps<L> = Steps::new(blank);
    set.map_steps(changes, &mut mapped)
}

/// The set of ranges that stand in order, of which none is longer than `longest`, in characters. No contract speaks of that: it only
/// decides where chunks are cut. `Err`: out of memory.
fn set_of<T: RangeValue>(ranges: Vec<Ranged<T>>, longest: u32) -> Result<RangeSet<T>, AllocError>
    requires { first_fault T.rules ranges.items ≡ None }
    ensures { IfOk result (λ s. s ≡ ranges.items) }
{
    // The proof takes from this line that the number of ranges fits usize.
    let _len = ranges.len();
    let alloc = *ranges.allocator();
    let mut builder = ChunkBuilder::new(alloc);
    builder.put_all(ranges, longest)?;
    let (groups, len) = in_groups(alloc, builder.finish())?;
    Ok(RangeSet { groups, len })
}

/// Groups of chunks whose ranges stand in order, and how many ranges they have. `Err`: out of memory.
fn in_groups<T: RangeValue>(
    alloc: Global,
    chunks: Vec<Placed<T>>,
) -> Result<(GroupList<T>, usize), AllocError>
    requires chunks { AreChunks T.rules chunks.items }
    requires order { first_fault T.rules (flat chunks.items) ≡ None }
    requires room { length (flat chunks.items) < 2 ^ 64 }
    ensures groups { IfOk result (λ made. AreGroupsOf T.rules made.0 made.1) }
    ensures ranges { IfOk result (λ made. flat (spread made.0) ≡ flat chunks.items) }
{
    let mut builder = GroupBuilder::for_chunks(alloc, chunks.len())?;
    builder.put_all(chunks)?;
    builder.finish()
}

/// Whether no range of some pages is empty with an end side less than its start side.
fn none_turned<T: RangeValue>(pages: &[PlacedPage<T>]) -> bool
    requires { ArePages T.rules pages.now }
    ensures { IsTrue result → list_any (is_turned T.rules) (flat (spread (laid pages.now))) ≡ false }
{
    for placed in pages {
        if placed.page.is_turned {
            return false;
        }
    }
    true
}

/// Whether each range of some pages lies in a document of `len` characters: whether their hulls do.
fn pages_end_within<T: RangeValue>(pages: &[PlacedPage<T>], len: u32) -> bool
    requires { ArePages T.rules pages.now }
    ensures { IsTrue result ↔ EndWithin len (flat (spread (laid pages.now))) }
{
    for placed in pages {
        if placed.start + placed.page.reach > len {
            return false;
        }
    }
    true
}

/// The last range of some pages.
#[inline(always)]
fn last_of<T: RangeValue>(pages: &[PlacedPage<T>]) -> Option<RangeRef<'_, T>>
    requires { ArePages T.rules pages.now }
    ensures { option_map seen result ≡ slice_get (flat (spread (laid pages.now))) (length (flat (spread (laid pages.now))) - 1) }
{
    let placed = pages.last()?;
    let inner = placed.page.groups.last()?;
    last_in(
        inner.group.chunks.as_slice(),
        placed.start + inner.start,
        inner.grown,
    )
}

/// The last range of some chunks, which count from the place `base`, and whose ranges end later by `grown`.
fn last_in<T: RangeValue>(chunks: &[Placed<T>], base: u32, grown: u32) -> Option<RangeRef<'_, T>>
    requires chunks { AreChunks T.rules (map (lengthen grown) chunks.now) }
    requires fits { base + greatest_end (flat (map (lengthen grown) chunks.now)) < 2 ^ 32 }
    ensures { option_map seen result ≡ slice_get (map (shift base) (flat (map (lengthen grown) chunks.now))) (length (flat (map (lengthen grown) chunks.now)) - 1) }
{
    let placed = chunks.last()?;
    let range = placed.chunk.ranges.last()?;
    let start = base + placed.start;
    Some(RangeRef {
        from: range.from + start,
        to: range.to + (placed.grown + grown) + start,
        value: &range.value,
    })
}

/// Whether there are two equal ranges or none.
fn same_last<T: RangeValue>(left: Option<RangeRef<'_, T>>, right: Option<RangeRef<'_, T>>) -> bool
    ensures { IsTrue result ↔ (option_map seen left.entry ≡ option_map seen right.entry) }
{
    match (left, right) {
        (Some(a), Some(b)) => a.same(&b),
        (None, None) => true,
        _ => false,
    }
}
