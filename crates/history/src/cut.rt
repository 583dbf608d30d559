ghost use Rattle.std.specs.Prelude.{IfOk, length, ◌≡◌, ◌≤◌};
ghost use Rattle.history.specs.Items.{change_count, keep_changes, keep_selects, most_selects};
ghost use Rattle.history.specs.PrivateItems.{room_after};
ghost use Rattle.history.specs.Steps.{kept_count};

use crate::chain::MOST_SELECTS;
use crate::items::{Items, with_all};
use std::alloc::{AllocError, Global};

/// How many Changes a depth keeps.
pub(crate) fn kept_count(depth: i64) -> usize
    ensures { result ≡ kept_count depth }
{
    if depth <= 0 { 0 } else { depth as usize }
}

/// So many of the newest Changes; the next one and all older items go. Less than a quarter as many links are made anew as items went
/// since the list got its chain.
pub(crate) fn keep_changes(alloc: Global, count: usize, items: Items) -> Result<Items, AllocError>
    ensures { IfOk result (λ kept. kept ≡ keep_changes count items) }
{
    newest_changes(count, items).compact(alloc)
}

/// The items with so many of the newest Changes, on the chain that they have.
fn newest_changes(count: usize, items: Items) -> Items
    ensures { result ≡ keep_changes count items }
{
    if items.change_count() <= count {
        return items;
    }
    let len = kept_len(count, &items);
    items.newest(len, count)
}

/// How many items have so many of the newest Changes. Where all are Changes none is looked at.
fn kept_len(count: usize, items: &Items) -> usize
    requires { count ≤ change_count items.now }
    ensures { result ≡ length (keep_changes count items.now) }
{
    if items.len() == items.change_count() {
        return count;
    }
    let mut room = count;
    let mut rest = items.tail();
    while let Some((item, older)) = rest.split_first() {
        if item.item().is_change() {
            if room == 0 {
                break;
            }
            room -= 1;
        }
        rest = older;
    }
    items.len() - rest.len()
}

/// How many more Selects may stand in the row that an item stands in, and whether it stays, where there was room for so many.
fn room_after(room: usize, is_change: bool) -> (usize, bool)
    ensures { result ≡ room_after room is_change }
{
    if is_change {
        (MOST_SELECTS, true)
    } else if room == 0 {
        (0, false)
    } else {
        (room - 1, true)
    }
}

/// Of each row of Selects the newest. A list whose rows all fit stays as it is.
#[inline(always)]
pub(crate) fn keep_selects(alloc: Global, items: Items) -> Result<Items, AllocError>
    ensures { IfOk result (λ kept. kept ≡ keep_selects most_selects items) }
{
    if items.rows_fit() {
        return Ok(items);
    }
    cut_rows(alloc, &items)
}

/// Of each row of Selects the newest. From the first row on after which none is longer than it may be, the list is shared; where
/// there is no such row, all links are made anew.
fn cut_rows(alloc: Global, items: &Items) -> Result<Items, AllocError>
    ensures { IfOk result (λ kept. kept ≡ keep_selects most_selects items.now) }
{
    let mut kept = Vec::new(alloc);
    let mut room = MOST_SELECTS;
    let mut rest = items.tail();
    while let Some((item, older)) = rest.split_first() {
        if room == MOST_SELECTS && rest.rows_fit() {
            return with_all(alloc, kept, rest.share()?);
        }
        let (left, stays) = room_after(room, item.item().is_change());
        room = left;
        if stays {
            kept.push(item.share()?)?;
        }
        rest = older;
    }
    with_all(alloc, kept, Items::empty())
}
