ghost use Rattle.std.specs.Prelude.{◌≡◌, ◌++◌, [], IfOk, IsTrue, map, option_copied, unwrap_or};
ghost use Rattle.cm_plain.specs.Plain.{datum_of};
ghost use Rattle.values.specs.Reading.{item, items_in};
ghost use Rattle.values.specs.Updating.{collected, counted_up, last_effect, number_or_zero, plain_values, update};
ghost use Rattle.shipped_rules.specs.Items.{AreItems};
ghost use Rattle.shipped_rules.specs.Effects.{last_of};
ghost use Rattle.cm_plain.specs.declared.plain.Plain.TheVariants as plain;

use crate::combining::{item_of, listed};
use crate::marking::{marked_lines, marks};
use crate::reading::{first_plain, number_in};
use crate::stepping::next_history;
use cm_plain::Plain;
use std::alloc::{AllocError, Global};
use values::{ShownEffect, UpdateView, Val};

/// What the updater of a number makes of a field's old value, a transaction, and what the field reads in the new state; `None` where
/// it is the old value. A new value may be equal to the old one. `Err`: out of memory.
pub fn update(
    alloc: Global,
    number: u32,
    old: &Val,
    view: &UpdateView,
) -> Result<Option<Val>, AllocError>
    ensures { IfOk result (λ answer. unwrap_or answer old.now ≡ update number old.now view.now.transaction view.now.deps) }
{
    match number {
        1 => Ok(None),
        2 => Ok(counted_up(old, view)),
        3 => last_effect(alloc, old, view),
        4 => marks(alloc, old, view),
        5 => marked_lines(alloc, old, view),
        6 => next_history(old, view),
        7 => collected(alloc, old, view),
        8 => Ok(Some(first_plain(alloc, &view.deps)?)),
        _ => Ok(Some(first_plain(alloc, &view.deps)?)),
    }
}

/// The second shipped updater: the old number and 1 more where the changes aren't empty, and else `None`; it stops at the end of
/// 64 bits.
fn counted_up(old: &Val, view: &UpdateView) -> Option<Val>
    ensures { unwrap_or result old.now ≡ counted_up old.now view.now.transaction view.now.deps }
{
    if view.transaction.changes().is_empty() {
        return None;
    }
    Some(Val::Plain(Plain::Int(number_or_zero(old).saturating_add(1))))
}

/// The number that a value is, or 0.
fn number_or_zero(value: &Val) -> i64
    ensures { result ≡ number_or_zero value.now }
{
    match number_in(value) {
        Some(number) => number,
        None => 0,
    }
}

/// The third shipped updater: the value of the last listened effect that is plain; `None` where none is. `Err`: out of memory.
fn last_effect(alloc: Global, old: &Val, view: &UpdateView) -> Result<Option<Val>, AllocError>
    ensures { IfOk result (λ answer. unwrap_or answer old.now ≡ last_effect old.now view.now.transaction view.now.deps) }
{
    match last_plain(view.transaction.effects()) {
        Some(plain) => Ok(Some(Val::Plain(plain.try_copy(alloc)?))),
        None => Ok(None),
    }
}

/// The last plain value of effects, if there is one.
fn last_plain(effects: &[ShownEffect]) -> Option<&Plain>
    ensures { option_copied result ≡ last_of (plain_values effects.now) }
{
    let mut last = None;
    for effect in effects {
        if let Val::Plain(plain) = &effect.value {
            last = Some(plain);
        }
    }
    last
}

/// The seventh shipped updater: the items of the old list, and then the plain values of the listened effects; `None` where the old
/// value is a list and no listened effect is plain. `Err`: out of memory.
fn collected(alloc: Global, old: &Val, view: &UpdateView) -> Result<Option<Val>, AllocError>
    ensures { IfOk result (λ answer. unwrap_or answer old.now ≡ collected old.now view.now.transaction view.now.deps) }
{
    let effects = view.transaction.effects();
    if collects_nothing(old, effects) {
        return Ok(None);
    }
    Ok(Some(with_collected(alloc, old, effects)?))
}

/// Whether a value is a list, and no effect adds an item to it.
fn collects_nothing(old: &Val, effects: &[ShownEffect]) -> bool
    ensures { IsTrue result → old.now ≡ Val.Plain (plain.List (items_in old.now ++ map item (plain_values effects.now))) }
{
    match old {
        Val::Plain(Plain::List(_)) => has_no_plain(effects),
        _ => false,
    }
}

/// Whether no effect has a plain value.
fn has_no_plain(effects: &[ShownEffect]) -> bool
    ensures { IsTrue result → plain_values effects.now ≡ [] }
{
    match last_plain(effects) {
        Some(_) => false,
        None => true,
    }
}

/// The items of the old list, and then the plain values of effects. `Err`: out of memory.
fn with_collected(alloc: Global, old: &Val, effects: &[ShownEffect]) -> Result<Val, AllocError>
    ensures { IfOk result (λ v. v ≡ Val.Plain (plain.List (items_in old.now ++ map item (plain_values effects.now)))) }
{
    let items = items_in(alloc, old)?;
    let items = with_values(alloc, items, effects)?;
    Ok(listed(items))
}

/// The items of a value that is a list, else none.
fn items_in(alloc: Global, value: &Val) -> Result<Vec<Plain>, AllocError>
    ensures items { IfOk result (λ items. map datum_of items.items ≡ items_in value.now) }
    ensures shallow { IfOk result (λ items. AreItems (map datum_of items.items)) }
{
    match value {
        Val::Plain(Plain::List(items)) => {
            // The proof takes from this line that no item is of the greatest depth.
            let _deepest = items.deepest();
            copied(alloc, items.as_slice())
        }
        _ => Ok(Vec::new(alloc)),
    }
}

/// The same items once more.
fn copied(alloc: Global, items: &[Plain]) -> Result<Vec<Plain>, AllocError>
    ensures { IfOk result (λ copies. copies.items ≡ items.now) }
{
    let mut copies = Vec::with_capacity(alloc, items.len())?;
    for item in items {
        copies.push(item.try_copy(alloc)?)?;
    }
    Ok(copies)
}

/// Items, and after them the plain values of effects.
fn with_values(
    alloc: Global,
    items: Vec<Plain>,
    effects: &[ShownEffect],
) -> Result<Vec<Plain>, AllocError>
    requires { AreItems (map datum_of items.items) }
    ensures items { IfOk result (λ all. map datum_of all.items ≡ map datum_of items.items ++ map item (plain_values effects.now)) }
    ensures shallow { IfOk result (λ all. AreItems (map datum_of all.items)) }
{
    let mut all = items;
    for effect in effects {
        if let Val::Plain(_) = &effect.value {
            all.push(item_of(alloc, &effect.value)?)?;
        }
    }
    Ok(all)
}
