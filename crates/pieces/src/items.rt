// Finding the widgets and replacements of a block.
ghost use Rattle.std.specs.Prelude.{◌≡◌, ◌++◌, ◌∷◌, [], flat_map, chars, IfOk, OnOk};
ghost use Rattle.std.specs.String.{string_bytes};
ghost use Rattle.range_set.specs.Seen.{seen};
ghost use Rattle.pieces.specs.Items.{item_of, items_of, set_items};

use crate::item::Item;
use cells::text_of;
use decoration::{Deco, DecoSet, Layers};
use range_set::RangeRef;
use stable_order::sort_stably;
use std::alloc::{AllocError, Global};

/// The widgets and replacements that touch the characters from one place to another, in the order in which their texts
/// stand. `Err`: out of memory.
pub(crate) fn items_of(
    alloc: Global,
    layers: &Layers,
    from: u32,
    to: u32,
) -> Result<Vec<Item>, AllocError>
    ensures { IfOk result (λ items. items.items ≡ items_of from to layers.now) }
{
    let mut items = layer_items(alloc, layers, from, to)?;
    sort_stably(&mut items)?;
    Ok(items)
}

/// The same in the order of the layers.
fn layer_items(alloc: Global, layers: &Layers, from: u32, to: u32) -> Result<Vec<Item>, AllocError>
    ensures { IfOk result (λ items. items.items ≡ flat_map (set_items from to) layers.now) }
{
    let mut items = Vec::new(alloc);
    for set in layers.sets() {
        push_items(alloc, &mut items, set, from, to)?;
    }
    Ok(items)
}

/// Adds those of a set.
fn push_items(
    alloc: Global,
    items: &mut Vec<Item>,
    set: &DecoSet,
    from: u32,
    to: u32,
) -> Result<(), AllocError>
    ensures { OnOk result (items.new.items ≡ items.old.items ++ set_items from to set.now) }
{
    for range in set.between(from, to) {
        push_item(alloc, items, &range, from)?;
    }
    Ok(())
}

/// Adds the decoration, if it is a widget that doesn't stand before `from` or a replacement that isn't empty.
fn push_item(
    alloc: Global,
    items: &mut Vec<Item>,
    range: &RangeRef<'_, Deco>,
    from: u32,
) -> Result<(), AllocError>
    ensures { OnOk result (items.new.items ≡ items.old.items ++ item_of from (seen range.now)) }
{
    match range.value {
        Deco::Widget(widget) if from <= range.from => {
            let text = text_of(alloc, widget.text().chars())?;
            items.push(Item {
                place: range.from,
                to: range.from,
                side: Some(widget.side()),
                text,
                style: widget.style(),
            })?;
        }
        Deco::Replace(replacement) if range.from < range.to => {
            let text = text_of(alloc, replacement.text().chars())?;
            items.push(Item {
                place: range.from,
                to: range.to,
                side: None,
                text,
                style: replacement.style(),
            })?;
        }
        _ => {}
    }
    Ok(())
}
