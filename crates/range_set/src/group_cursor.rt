ghost use Rattle.std.specs.Prelude.{IfSome, IsTrue, None, [], ◌++◌, ◌≡◌, map};
ghost use Rattle.range_set.specs.Points.{points_of};
ghost use Rattle.range_set.specs.PrivateChunks.{ArePassed, flat, spread};
ghost use Rattle.range_set.specs.PrivatePages.{AreGroupsLeft, AreLast, ArePages, NextBegins, PlacesFirst, PlacesGroups, PlacesPage, further, laid};

use crate::group::PlacedGroup;
use crate::page::PlacedPage;
use crate::range_value::RangeValue;
use std::marker::Model;

/// A place between the groups of pages. Contracts see the groups after it, at their places.
#[derive(Drop)]
pub(crate) struct GroupCursor<'a, T: RangeValue> {
    /// The place from which the groups of the page that was reached count.
    base: u32,
    groups: &'a [PlacedGroup<T>],
    pages: &'a [PlacedPage<T>],
}

impl<'a, T: RangeValue> Model for GroupCursor<'a, T> {
    ghost use Rattle.std.specs.Prelude.{List, ◌++◌, map};
    ghost use Rattle.range_set.specs.declared.group.PlacedGroup.{PlacedGroup};
    ghost use Rattle.range_set.specs.PrivatePages.{AreGroupsLeft, further, laid};

    ghost Value = { List (PlacedGroup T) };

    ghost view = { λ s. map (further s.base) s.groups.now ++ laid s.pages.now };

    ghost invariant = { λ s. AreGroupsLeft T.rules s.base s.groups.now s.pages.now };
}

impl<'a, T: RangeValue> GroupCursor<'a, T> {
    /// The place before all groups of pages.
    pub(crate) fn over(pages: &'a [PlacedPage<T>]) -> GroupCursor<'a, T>
        requires { ArePages T.rules pages.now }
        ensures { result ≡ laid pages.now }
    {
        GroupCursor {
            base: 0,
            groups: &[],
            pages,
        }
    }

    /// The place before some groups of a page, which count from the place `base`, and the pages after it.
    pub(crate) fn at(
        base: u32,
        groups: &'a [PlacedGroup<T>],
        pages: &'a [PlacedPage<T>],
    ) -> GroupCursor<'a, T>
        requires { AreGroupsLeft T.rules base groups.now pages.now }
        ensures { result ≡ map (further base) groups.now ++ laid pages.now }
    {
        GroupCursor {
            base,
            groups,
            pages,
        }
    }

    /// How many pages begin after it. No contract speaks of this: it only says how much room to make.
    pub(crate) fn pages_left(&self) -> usize {
        self.pages.len()
    }

    /// How many groups the first page that begins after it has. No contract speaks of this: it only says how much room to make.
    pub(crate) fn groups_next(&self) -> usize {
        match self.pages.first() {
            Some(placed) => placed.page.groups.len(),
            None => 0,
        }
    }

    /// The next group, its place, and the place after it.
    #[inline(always)]
    pub(crate) fn split_first(&self) -> Option<(u32, &'a PlacedGroup<T>, GroupCursor<'a, T>)>
        ensures some { IfSome result (λ x. PlacesFirst T.rules self.now x.0 x.1.now x.2) }
        ensures none { result ≡ None → self.now ≡ [] }
    {
        match self.groups.split_first() {
            Some((placed, others)) => Some((
                self.base + placed.start,
                placed,
                GroupCursor {
                    base: self.base,
                    groups: others,
                    pages: self.pages,
                },
            )),
            None => {
                let (placed, others) = self.pages.split_first()?;
                let (first, groups) = placed.page.groups.as_slice().split_first()?;
                Some((
                    placed.start + first.start,
                    first,
                    GroupCursor {
                        base: placed.start,
                        groups,
                        pages: others,
                    },
                ))
            }
        }
    }

    /// The page that begins here, and the place after it; none where groups are left of another page, or no groups. No contract says
    /// where there is none: it only decides what is shared or passed as a whole.
    pub(crate) fn split_page(&self) -> Option<(&'a PlacedPage<T>, GroupCursor<'a, T>)>
        ensures { IfSome result (λ x. PlacesPage T.rules self.now x.0.now x.1) }
    {
        if !self.groups.is_empty() {
            return None;
        }
        let (placed, others) = self.pages.split_first()?;
        Some((placed, GroupCursor::over(others)))
    }

    /// The place from which the next groups of a page count, these groups up to the page's end, and the pages after it; none where no
    /// groups are left.
    pub(crate) fn split_groups(&self) -> Option<(u32, &'a [PlacedGroup<T>], &'a [PlacedPage<T>])>
        ensures some { IfSome result (λ x. PlacesGroups T.rules self.now x.0 x.1.now x.2.now) }
        ensures none { result ≡ None → self.now ≡ [] }
    {
        if !self.groups.is_empty() {
            return Some((self.base, self.groups, self.pages));
        }
        let (placed, others) = self.pages.split_first()?;
        Some((placed.start, placed.page.groups.as_slice(), others))
    }

    /// Whether a group follows that begins before a place. No contract says so of one that follows: it only decides what is shared.
    pub(crate) fn begins_before(&self, place: u32) -> bool
        ensures { IsTrue result → NextBegins T.rules place self.now }
    {
        match self.split_first() {
            Some((start, _, _)) => start < place,
            None => false,
        }
    }

    /// The place after pages that begin here and whose hull ends before a place of the document. No contract says how many they are.
    pub(crate) fn past_pages(&self, place: u32) -> GroupCursor<'a, T>
        ensures passed { ArePassed place (spread self.now) (spread result) }
        ensures last { AreLast self.now result }
    {
        let mut rest = self.copy();
        while let Some((placed, others)) = rest.split_page() {
            if place <= placed.start + placed.page.reach {
                return rest;
            }
            rest = others;
        }
        rest
    }

    /// The place after pages that begin here and have no range that stands for what it covers. No contract says how many they are.
    pub(crate) fn past_pages_without_point(&self) -> GroupCursor<'a, T>
        ensures kept { points_of T.rules (flat (spread result)) ≡ points_of T.rules (flat (spread self.now)) }
        ensures last { AreLast self.now result }
    {
        let mut rest = self.copy();
        while let Some((placed, others)) = rest.split_page() {
            if placed.page.has_point {
                return rest;
            }
            rest = others;
        }
        rest
    }

    /// The same place once more.
    pub(crate) fn copy(&self) -> GroupCursor<'a, T>
        ensures { result ≡ self.now }
    {
        GroupCursor {
            base: self.base,
            groups: self.groups,
            pages: self.pages,
        }
    }
}
