ghost use Rattle.std.specs.Prelude.{◌≡◌, map};
ghost use Rattle.range_set.specs.PrivatePages.{AreGrowing, IsPage, further};

use crate::group::PlacedGroup;
use crate::range_value::RangeValue;
use std::rc::Rc;

/// How many groups make a page full in a small set.
const MIN_FULL: usize = 12;

/// How many groups make a page full in a large set.
const MAX_FULL: usize = 32;

/// For how many more groups a page that is begun has room than the one that it stands for has: a change parts a group or two.
pub(crate) const MORE_GROUPS: usize = 2;

/// How many groups make a page full in a set of so many pages: as many as there are pages, from 12 to 32. A change makes the list of
/// the pages anew, and shares the groups of the pages that it meets one by one, so neither should be many. No contract speaks of
/// this: it only decides where pages are cut.
pub(crate) fn full_page_among(pages: usize) -> usize {
    pages.max(MIN_FULL).min(MAX_FULL)
}

/// How many groups make a page full in a set of so many groups that are put into pages at once: the square root of their number,
/// rounded down, from 12 to 32, so that there are about as many pages. No contract speaks of this.
pub(crate) fn full_page_for(groups: usize) -> usize {
    for full in MIN_FULL..MAX_FULL {
        let next = full + 1;
        if next.saturating_mul(next) > groups {
            return full;
        }
    }
    MAX_FULL
}

/// Groups in order, whose places count from the start of the first range.
#[derive(Drop)]
pub(crate) struct Page<T> {
    /// How many ranges they have.
    pub(crate) count: usize,
    /// The greatest end of their ranges: the hull of the page runs from its place to its place and this.
    pub(crate) reach: u32,
    /// Whether one of their ranges is empty with an end side less than its start side.
    pub(crate) is_turned: bool,
    /// Whether one of their ranges stands for what it covers.
    pub(crate) has_point: bool,
    pub(crate) groups: Vec<PlacedGroup<T>>,
}

/// A page, which sets share, at its place: the start of its first range, in characters.
#[derive(Drop)]
pub(crate) struct PlacedPage<T> {
    pub(crate) start: u32,
    pub(crate) page: Rc<Page<T>>,
}

impl<T: RangeValue> Page<T> {
    /// The page of groups that count from the start of the document, at the place `start`, where the first of them stands.
    pub(crate) fn of(start: u32, mut groups: Vec<PlacedGroup<T>>) -> Page<T>
        requires { AreGrowing T.rules start groups.items }
        ensures page { IsPage T.rules start result }
        ensures groups { map (further start) result.groups.items ≡ groups.items }
    {
        let mut count: usize = 0;
        let mut reach: u32 = 0;
        let mut is_turned = false;
        let mut has_point = false;
        for placed in groups.iter_mut() {
            let from = placed.start - start;
            count += placed.group.count;
            reach = reach.max(from + placed.reach());
            is_turned |= placed.group.is_turned;
            has_point |= placed.group.has_point;
            placed.start = from;
        }
        Page {
            groups,
            count,
            reach,
            is_turned,
            has_point,
        }
    }
}
