ghost use Rattle.std.specs.Prelude.{IfOk, IsTrue, MatchOption, [], length, take, true, ◌++◌, ◌∷◌, ◌≡◌, ◌≤◌};
ghost use Rattle.history.specs.Items.{change_count};
ghost use Rattle.history.specs.PrivateCounts.{rows_fit};

use crate::chain::{Chain, Link};
use crate::shared_item::SharedItem;
use std::alloc::{AllocError, Global};
use std::marker::Model;

/// How many items that are cut off may stay in a chain for each item of its list. No contract speaks of it.
const MOST_CUT: usize = 4;

/// Items, newest first: the newest of a chain, which other lists share. The oldest items of the chain may be cut off: a cut makes
/// no link, since it leaves the chain as it is, and what is cut off stays in memory until `compact` makes the list a chain of its
/// own. Then it is kept beside the new chain, and each time that the list is shared, the newest of it is left out: so the steps
/// after a cut free it item by item. What is left when the list next gets a chain of its own goes at once. Contracts see the list of
/// the items.
#[derive(Drop)]
pub struct Items {
    chain: Chain,
    /// How many items of the chain are not cut off, and how many of them are Changes.
    len: usize,
    changes: usize,
    /// What is left of the items that were cut off when the list got its chain: of what was undone there is none, since that isn't
    /// cut. No contract speaks of it.
    cut_off: Link,
}

impl Model for Items {
    ghost use Rattle.std.specs.Prelude.{List, take};
    ghost use Rattle.std.specs.Coded.{codes};
    ghost use Rattle.cm_plain.specs.Datum.{coded_datum};
    ghost use Rattle.history.specs.declared.item.Item.{Item};

    ghost Value = { List Item };

    ghost coded = { Prim.hlevel (codes, coded_datum) };

    ghost use Rattle.history.specs.PrivateCounts.{IsCut};

    ghost view = { λ a. take a.len a.chain };

    ghost invariant = { λ a. IsCut a.chain a.len a.changes };
}

/// The items of a list from one on, lent. Contracts see the list of these items.
#[derive(Drop)]
pub(crate) struct Tail<'a> {
    chain: &'a Chain,
    len: usize,
    changes: usize,
    cut_off: &'a Link,
}

impl<'a> Model for Tail<'a> {
    ghost use Rattle.std.specs.Prelude.{List, take};
    ghost use Rattle.std.specs.Coded.{codes};
    ghost use Rattle.cm_plain.specs.Datum.{coded_datum};
    ghost use Rattle.history.specs.declared.item.Item.{Item};

    ghost Value = { List Item };

    ghost coded = { Prim.hlevel (codes, coded_datum) };

    ghost use Rattle.history.specs.PrivateCounts.{IsCut};

    ghost view = { λ a. take a.len a.chain.now };

    ghost invariant = { λ a. IsCut a.chain.now a.len a.changes };
}

impl Items {
    /// The list without items.
    pub(crate) fn empty() -> Items
        ensures { result ≡ [] }
    {
        Items::empty_keeping(Link::End)
    }

    /// The list without items that still keeps these, which were cut off.
    fn empty_keeping(cut_off: Link) -> Items
        ensures { result ≡ [] }
    {
        Items {
            chain: Chain::empty(),
            len: 0,
            changes: 0,
            cut_off,
        }
    }

    /// An item before these, which are shared. `Err`: out of memory.
    #[inline(always)]
    pub(crate) fn with_shared(self, alloc: Global, item: SharedItem) -> Result<Items, AllocError>
        ensures { IfOk result (λ all. all ≡ item ∷ self) }
    {
        let len = match self.len.checked_add(1) {
            Some(len) => len,
            None => return Err(AllocError),
        };
        let changes = self.changes + item.item().change_count();
        Ok(Items {
            chain: self.chain.with_shared(alloc, item)?,
            len,
            changes,
            cut_off: self.cut_off,
        })
    }

    /// So many of the newest items, of which so many are Changes, on the chain that they have.
    pub(crate) fn newest(self, len: usize, changes: usize) -> Items
        requires few { len ≤ length self }
        requires changes { changes ≡ change_count (take len self) }
        ensures { result ≡ take len self }
    {
        Items {
            chain: self.chain,
            len,
            changes,
            cut_off: self.cut_off,
        }
    }

    /// The same list, which gets a chain of its own where more than `MOST_CUT` items of its chain are cut off for each item that it has.
    /// So at most `MOST_CUT` items of its chain are cut off for each item of the list, and each link that is made anew stands for more
    /// than `MOST_CUT` items that were cut off. Beside its chain the list keeps what is left of those that were cut off when it got it.
    /// `Err`: out of memory.
    pub(crate) fn compact(self, alloc: Global) -> Result<Items, AllocError>
        ensures { IfOk result (λ same. same ≡ self) }
    {
        if self.chain.len() - self.len <= self.len.saturating_mul(MOST_CUT) {
            return Ok(self);
        }
        self.compacted(alloc)
    }

    /// The same list on a chain of its own. `Err`: out of memory.
    fn compacted(&self, alloc: Global) -> Result<Items, AllocError>
        ensures { IfOk result (λ same. same ≡ self.now) }
    {
        let mut items = Vec::with_capacity(alloc, self.len())?;
        let mut rest = self.tail();
        while let Some((item, older)) = rest.split_first() {
            items.push(item.share()?)?;
            rest = older;
        }
        with_all(alloc, items, Items::empty_keeping(rest.chain.link()?))
    }

    /// All items, lent.
    pub(crate) fn tail(&self) -> Tail<'_>
        ensures { result ≡ self.now }
    {
        Tail {
            chain: &self.chain,
            len: self.len,
            changes: self.changes,
            cut_off: &self.cut_off,
        }
    }

    /// The same list once more, without a copy of its items. `Err`: no further owner can be counted.
    pub(crate) fn share(&self) -> Result<Items, AllocError>
        ensures { IfOk result (λ same. same ≡ self.now) }
    {
        self.tail().share()
    }

    /// The newest item and the older ones.
    pub(crate) fn split_first(&self) -> Option<(&SharedItem, Tail<'_>)>
        ensures { MatchOption result (self.now ≡ []) (λ parts. self.now ≡ parts.0.now ∷ parts.1) }
    {
        self.tail().split_first()
    }

    /// How many items there are.
    pub(crate) fn len(&self) -> usize
        ensures { result ≡ length self.now }
    {
        self.len
    }

    /// How many Changes there are.
    pub(crate) fn change_count(&self) -> usize
        ensures { result ≡ change_count self.now }
    {
        self.changes
    }

    /// Whether no row of Selects of the chain is longer than it may be, so that none of these items is.
    #[inline(always)]
    pub(crate) fn rows_fit(&self) -> bool
        ensures { IsTrue result → rows_fit self.now ≡ true }
    {
        self.tail().rows_fit()
    }
}

impl<'a> Tail<'a> {
    /// The newest item and the older ones.
    pub(crate) fn split_first(&self) -> Option<(&'a SharedItem, Tail<'a>)>
        ensures { MatchOption result (self.now ≡ []) (λ parts. self.now ≡ parts.0.now ∷ parts.1) }
    {
        if self.len == 0 {
            return None;
        }
        let chain = self.chain;
        match chain.split_first() {
            None => None,
            Some((item, older)) => {
                let changes = self.changes - item.item().change_count();
                Some((
                    item,
                    Tail {
                        chain: older,
                        len: self.len - 1,
                        changes,
                        cut_off: self.cut_off,
                    },
                ))
            }
        }
    }

    /// These items as a list, without a copy of them. The newest of what is left of the items that were cut off isn't kept. `Err`: no
    /// further owner can be counted.
    #[inline(always)]
    pub(crate) fn share(&self) -> Result<Items, AllocError>
        ensures { IfOk result (λ same. same ≡ self.now) }
    {
        let chain = self.chain;
        let cut_off = self.cut_off;
        Ok(Items {
            chain: chain.share()?,
            len: self.len,
            changes: self.changes,
            cut_off: cut_off.without_first()?,
        })
    }

    /// How many items there are.
    pub(crate) fn len(&self) -> usize
        ensures { result ≡ length self.now }
    {
        self.len
    }

    /// Whether no row of Selects of the chain is longer than it may be, so that none of these items is.
    pub(crate) fn rows_fit(&self) -> bool
        ensures { IsTrue result → rows_fit self.now ≡ true }
    {
        let chain = self.chain;
        chain.rows_fit()
    }
}

/// Items before others. `Err`: out of memory.
#[inline(always)]
pub(crate) fn with_all(
    alloc: Global,
    newer: Vec<SharedItem>,
    others: Items,
) -> Result<Items, AllocError>
    ensures { IfOk result (λ all. all ≡ newer.items ++ others) }
{
    let mut newer = newer;
    let mut all = others;
    while let Some(item) = newer.pop() {
        all = all.with_shared(alloc, item)?;
    }
    Ok(all)
}
