ghost use Rattle.std.specs.Prelude.{IfOk, IfSome, MatchOption, [], drop, length, ◌∷◌, ◌≡◌, ◌≤◌};
ghost use Rattle.history.specs.PrivateCounts.{counted_with, rows_fit};
ghost use Rattle.history.specs.PrivateLinks.{items_of};

use crate::item::Item;
use crate::shared_item::SharedItem;
use std::alloc::{AllocError, Global};
use std::marker::Model;
use std::rc::Rc;

/// How many Selects may stand in a row.
pub const MOST_SELECTS: usize = 200;

/// What a chain keeps of its items, so that no step counts them.
#[derive(Clone, Copy, Drop)]
pub(crate) struct Counts {
    /// How many items there are.
    pub(crate) len: usize,
    /// How many Selects stand before the first Change.
    pub(crate) row: usize,
    /// Whether no row of Selects is longer than it may be.
    pub(crate) rows_fit: bool,
}

impl Counts {
    /// With one more item before the others. `None`: there are as many as can be counted.
    fn counted_with(&self, item: &Item) -> Option<Counts>
        requires { self.now.row ≤ self.now.len }
        ensures { IfSome result (λ more. more ≡ counted_with item.now self.now) }
    {
        let len = self.len.checked_add(1)?;
        let more = match item {
            Item::Change(_) => Counts {
                len,
                row: 0,
                rows_fit: self.rows_fit,
            },
            Item::Select(_) => Counts {
                len,
                row: self.row + 1,
                rows_fit: self.row + 1 <= MOST_SELECTS && self.rows_fit,
            },
        };
        Some(more)
    }
}

/// Items, newest first. Each chain is a link to the chain of those older than its first, which other chains share: so an item is
/// put before others, and a chain is shared, without a copy of the others. Contracts see the list of the items.
#[cycle(chain)]
pub(crate) struct Chain {
    counts: Counts,
    newest: Link,
}

/// The newest item of a chain, if there is one, and the older ones.
#[cycle(chain)]
#[derive(Drop)]
pub(crate) enum Link {
    End,
    More(Rc<Node>),
}

/// An item and the older ones.
#[cycle(chain)]
#[derive(Drop)]
pub(crate) struct Node {
    pub(crate) item: SharedItem,
    pub(crate) older: Chain,
}

impl Model for Chain {
    ghost use Rattle.std.specs.Prelude.{List};
    ghost use Rattle.std.specs.Coded.{codes};
    ghost use Rattle.cm_plain.specs.Datum.{coded_datum};
    ghost use Rattle.history.specs.declared.item.Item.{Item};

    ghost Value = { List Item };

    ghost coded = { Prim.hlevel (codes, coded_datum) };

    ghost use Rattle.history.specs.PrivateCounts.{IsCounted};
    ghost use Rattle.history.specs.PrivateLinks.{items_of};

    ghost view = { λ a. items_of a.newest };

    ghost invariant = { λ a. IsCounted (items_of a.newest) a.counts };

    ghost use Rattle.std.specs.Prelude.{length};

    ghost size = { length };

    ghost use Rattle.std.proofs.Common.{arith, length-append};

    ghost size_decreases = { λ a h. Prim.grind (arith, length-append) };
}

/// A loop, since a long chain would else be dropped by as many calls as it has items.
impl Drop for Chain {
    fn drop(mut self) {
        loop {
            match self {
                Chain {
                    counts: _,
                    newest: Link::End,
                } => return,
                Chain {
                    counts: _,
                    newest: Link::More(node),
                } => match Rc::into_inner(node) {
                    None => return,
                    Some(Node { item: _item, older }) => self = older,
                },
            }
        }
    }
}

impl Link {
    /// The same link once more, without a copy of its items. `Err`: no further owner can be counted.
    fn share(&self) -> Result<Link, AllocError>
        ensures { IfOk result (λ same. items_of same ≡ items_of self.now) }
    {
        match self {
            Link::End => Ok(Link::End),
            Link::More(node) => Ok(Link::More(node.clone()?)),
        }
    }

    /// The link to the items older than its newest. `Err`: no further owner can be counted.
    pub(crate) fn without_first(&self) -> Result<Link, AllocError>
        ensures { IfOk result (λ older. items_of older ≡ drop 1 (items_of self.now)) }
    {
        match self {
            Link::End => Ok(Link::End),
            Link::More(node) => node.older.link(),
        }
    }
}

impl Chain {
    /// The link to these items. `Err`: no further owner can be counted.
    pub(crate) fn link(&self) -> Result<Link, AllocError>
        ensures { IfOk result (λ link. items_of link ≡ self.now) }
    {
        self.newest.share()
    }

    /// The chain without items.
    pub(crate) fn empty() -> Chain
        ensures { result ≡ [] }
    {
        Chain {
            counts: Counts {
                len: 0,
                row: 0,
                rows_fit: true,
            },
            newest: Link::End,
        }
    }

    /// An item before these, which are shared. `Err`: out of memory.
    pub(crate) fn with_shared(self, alloc: Global, item: SharedItem) -> Result<Chain, AllocError>
        ensures { IfOk result (λ all. all ≡ item ∷ self) }
    {
        let counts = match self.counts.counted_with(item.item()) {
            Some(counts) => counts,
            None => return Err(AllocError),
        };
        match Rc::new(alloc, Node { item, older: self }) {
            Ok(node) => Ok(Chain {
                counts,
                newest: Link::More(node),
            }),
            Err(_) => Err(AllocError),
        }
    }

    /// The same chain once more, without a copy of its items. `Err`: no further owner can be counted.
    pub(crate) fn share(&self) -> Result<Chain, AllocError>
        ensures { IfOk result (λ same. same ≡ self.now) }
    {
        match &self.newest {
            Link::End => Ok(Chain::empty()),
            Link::More(node) => Ok(Chain {
                counts: self.counts,
                newest: Link::More(node.clone()?),
            }),
        }
    }

    /// The newest item and the older ones.
    pub(crate) fn split_first(&self) -> Option<(&SharedItem, &Chain)>
        ensures { MatchOption result (self.now ≡ []) (λ parts. self.now ≡ parts.0.now ∷ parts.1.now) }
    {
        match &self.newest {
            Link::End => None,
            Link::More(node) => Some((&node.item, &node.older)),
        }
    }

    /// How many items there are.
    pub(crate) fn len(&self) -> usize
        ensures { result ≡ length self.now }
    {
        self.counts.len
    }

    /// Whether no row of Selects is longer than it may be.
    pub(crate) fn rows_fit(&self) -> bool
        ensures { result ≡ rows_fit self.now }
    {
        self.counts.rows_fit
    }
}
