ghost use Rattle.std.specs.Prelude.{◌≡◌, ◌≤◌, [], IfOk, IfSome, IsTrue, Some, cond, length, option_copied, option_map, unwrap_or};
ghost use Rattle.std.specs.List.{list_any};
ghost use Rattle.change_desc.specs.Ranges.{changes_nothing};
ghost use Rattle.change_desc.specs.Sections.{lengths, spelled};
ghost use Rattle.decoration.specs.Sides.{deco_rules};
ghost use Rattle.range_set.specs.Mapping.{EndWithin, map_ranges};
ghost use Rattle.range_set.specs.Seen.{seen};
ghost use Rattle.values.specs.Reading.{ranges_in};
ghost use Rattle.values.specs.Updating.{is_unit, is_within, kept_within, line_at, line_of, mapped_set, mark_between, mark_of, marked_lines, marks, reversed, with_range, with_ranges};
ghost use Rattle.values.specs.Views.{IsTransaction};
ghost use Rattle.values.specs.declared.shown_effect.ShownEffect.{ShownEffect};

use crate::reading::{number_in, pair_in, place_in, places_in};
use cm_plain::Plain;
use decoration::{Deco, DecoSet, Inclusive, Style, place_line};
use line_tree::Text;
use range_set::{RangeError, RangeRef, RangeSet, Ranged};
use std::alloc::{AllocError, Global};
use values::{ShownEffect, TrView, UpdateView, Val};

/// The fourth shipped updater: the old set over the changes, emptied where an effect is Unit, and then the marks that effects
/// make; `None` where it is the old set. `Err`: out of memory.
pub(crate) fn marks(alloc: Global, old: &Val, view: &UpdateView) -> Result<Option<Val>, AllocError>
    ensures { IfOk result (λ answer. unwrap_or answer old.now ≡ marks old.now view.now.transaction view.now.deps) }
{
    match view.transaction.effects() {
        [] => moved(alloc, old, &view.transaction),
        [_, ..] => Ok(Some(marked(alloc, old, view)?)),
    }
}

/// The old set over the changes, emptied where an effect is Unit, and then the marks that effects make.
fn marked(alloc: Global, old: &Val, view: &UpdateView) -> Result<Val, AllocError>
    ensures { IfOk result (λ v. v ≡ marks old.now view.now.transaction view.now.deps) }
{
    let transaction = &view.transaction;
    let kept = unless_emptied(alloc, old, transaction)?;
    let set = with_marks(
        alloc,
        kept,
        transaction.document().len(),
        transaction.effects(),
    )?;
    Ok(Val::Ranges(set))
}

/// The fifth shipped updater: the old set over the changes, and then the line decorations that effects make; `None` where it is
/// the old set. `Err`: out of memory.
pub(crate) fn marked_lines(
    alloc: Global,
    old: &Val,
    view: &UpdateView,
) -> Result<Option<Val>, AllocError>
    ensures { IfOk result (λ answer. unwrap_or answer old.now ≡ marked_lines old.now view.now.transaction view.now.deps) }
{
    match view.transaction.effects() {
        [] => moved(alloc, old, &view.transaction),
        [_, ..] => Ok(Some(lined(alloc, old, view)?)),
    }
}

/// The old set over the changes, and then the line decorations that effects make.
fn lined(alloc: Global, old: &Val, view: &UpdateView) -> Result<Val, AllocError>
    ensures { IfOk result (λ v. v ≡ marked_lines old.now view.now.transaction view.now.deps) }
{
    let mapped = mapped_set(alloc, old, &view.transaction)?;
    let set = with_lines(
        alloc,
        mapped,
        view.deps.document(),
        view.transaction.effects(),
    )?;
    Ok(Val::Ranges(set))
}

/// The old set over the changes, where no effect adds to it; `None` where it is the old set. `Err`: out of memory.
#[inline(always)]
fn moved(alloc: Global, old: &Val, transaction: &TrView) -> Result<Option<Val>, AllocError>
    ensures { IfOk result (λ answer. unwrap_or answer old.now ≡ Val.Ranges (mapped_set transaction.now (ranges_in old.now))) }
{
    let mapped = mapped_set(alloc, old, transaction)?;
    if stays(old, &mapped, transaction) {
        return Ok(None);
    }
    Ok(Some(Val::Ranges(mapped)))
}

/// Whether a value is a set that its transaction leaves as it is, which has become `mapped`: the changes are empty, and no range is
/// dropped.
fn stays(old: &Val, mapped: &DecoSet, transaction: &TrView) -> bool
    requires { mapped.now ≡ mapped_set transaction.now (ranges_in old.now) }
    ensures { IsTrue result → old.now ≡ Val.Ranges mapped.now }
{
    match old {
        Val::Ranges(set) => transaction.changes().is_empty() && keeps_all(set, mapped, transaction),
        _ => false,
    }
}

/// Whether empty changes drop no range of a set.
fn keeps_all(set: &DecoSet, mapped: &DecoSet, transaction: &TrView) -> bool
    requires mapped { mapped.now ≡ mapped_set transaction.now set.now }
    requires nothing { IsTrue (changes_nothing transaction.now.changes) }
    ensures { IsTrue result → mapped.now ≡ set.now }
{
    // The proof takes from these lines that the set stands in order, and that the changes are of the start document.
    set.known();
    transaction.known();
    mapped.len() == set.len()
}

/// The old set over the changes, or none where an effect is Unit.
fn unless_emptied(alloc: Global, old: &Val, transaction: &TrView) -> Result<DecoSet, AllocError>
    ensures { IfOk result (λ set. set ≡ cond (list_any (λ (e : ShownEffect). is_unit e.value) transaction.now.effects) [] (mapped_set transaction.now (ranges_in old.now))) }
{
    if some_unit(transaction.effects()) {
        return Ok(RangeSet::empty(alloc));
    }
    mapped_set(alloc, old, transaction)
}

/// Whether the value of an effect is Unit.
fn some_unit(effects: &[ShownEffect]) -> bool
    ensures { result ≡ list_any (λ (e : ShownEffect). is_unit e.value) effects.now }
{
    for effect in effects {
        if is_unit(&effect.value) {
            return true;
        }
    }
    false
}

/// Whether it is Unit.
fn is_unit(value: &Val) -> bool
    ensures { result ≡ is_unit value.now }
{
    match value {
        Val::Plain(Plain::Unit) => true,
        _ => false,
    }
}

/// The set that a value is, or an empty one, over the changes of a transaction, without the ranges that end past the start
/// document.
fn mapped_set(alloc: Global, old: &Val, transaction: &TrView) -> Result<DecoSet, AllocError>
    ensures { IfOk result (λ set. set ≡ mapped_set transaction.now (ranges_in old.now)) }
{
    match old {
        Val::Ranges(set) => mapped_inside(alloc, set, transaction),
        _ => Ok(RangeSet::empty(alloc)),
    }
}

/// A set over the changes of a transaction, without the ranges that end past the start document.
fn mapped_inside(alloc: Global, set: &DecoSet, transaction: &TrView) -> Result<DecoSet, AllocError>
    ensures { IfOk result (λ mapped. mapped ≡ mapped_set transaction.now set.now) }
{
    transaction.known();
    let len = transaction.start().len();
    if set.ends_within(len) {
        return mapped_whole(set, transaction);
    }
    let kept = kept_within(alloc, set, len)?;
    mapped(&kept, transaction)
}

/// A set in the start document over the changes, where no range is left out.
fn mapped_whole(set: &DecoSet, transaction: &TrView) -> Result<DecoSet, AllocError>
    requires known { IsTransaction transaction.now }
    requires inside { EndWithin (length transaction.now.start) set.now }
    ensures { IfOk result (λ mapped. mapped ≡ mapped_set transaction.now set.now) }
{
    // The proof takes from this line that the set stands in order.
    set.known();
    mapped(set, transaction)
}

/// A set in the start document over the changes.
fn mapped(set: &DecoSet, transaction: &TrView) -> Result<DecoSet, AllocError>
    requires known { IsTransaction transaction.now }
    requires inside { EndWithin (length transaction.now.start) set.now }
    ensures { IfOk result (λ mapped. mapped ≡ map_ranges deco_rules (lengths spelled transaction.now.changes) set.now) }
{
    let changes = transaction.changes().desc()?;
    set.map(&changes)
}

/// The ranges of a set that lie in a document of this length.
fn kept_within(alloc: Global, set: &DecoSet, len: u32) -> Result<DecoSet, AllocError>
    ensures { IfOk result (λ kept. kept ≡ kept_within len set.now) }
{
    let kept = set.update(Vec::new(alloc), |range| is_within(range, len));
    match kept {
        Ok(kept) => Ok(kept),
        Err(RangeError::NoMemory) => Err(AllocError),
        Err(_) => unreachable!(),
    }
}

/// Whether a range lies in a document of this length.
fn is_within(range: &RangeRef<'_, Deco>, len: u32) -> bool
    ensures { result ≡ is_within len (seen range.now) }
{
    range.from <= len && range.to <= len
}

/// A set with one more range, which stands after those of its place.
fn with_range(alloc: Global, set: &DecoSet, range: Ranged<Deco>) -> Result<DecoSet, AllocError>
    requires { range.from ≤ range.to }
    ensures { IfOk result (λ more. more ≡ with_range set.now range) }
{
    let mut ranges = Vec::new(alloc);
    ranges.push(range)?;
    match set.with_added(ranges) {
        Ok(more) => Ok(more),
        Err(RangeError::NoMemory) => Err(AllocError),
        Err(_) => unreachable!(),
    }
}

/// A set with the marks that effects make in a document of this length.
fn with_marks(
    alloc: Global,
    set: DecoSet,
    len: u32,
    effects: &[ShownEffect],
) -> Result<DecoSet, AllocError>
    ensures { IfOk result (λ all. all ≡ with_ranges (mark_of len) set effects.now) }
{
    let mut all = set;
    for effect in effects {
        if let Some(mark) = mark_of(effect, len) {
            all = with_range(alloc, &all, mark)?;
        }
    }
    Ok(all)
}

/// The mark that an effect makes in a document of this length: its value is a list of the two ends.
fn mark_of(effect: &ShownEffect, len: u32) -> Option<Ranged<Deco>>
    ensures mark { result ≡ mark_of len effect.now }
    ensures forward { IfSome result (λ range. range.from ≤ range.to) }
{
    let (from, to) = pair_in(&effect.value)?;
    let (from, to) = places_in(from, to)?;
    mark_between(from, to, len)
}

/// The mark between two places of a document of this length, unless it is empty or reaches out.
fn mark_between(from: u32, to: u32, len: u32) -> Option<Ranged<Deco>>
    ensures mark { result ≡ mark_between len (from, to) }
    ensures forward { IfSome result (λ range. range.from ≤ range.to) }
{
    if from < to && to <= len {
        Some(Ranged {
            from,
            to,
            value: reversed(),
        })
    } else {
        None
    }
}

/// A mark that shows characters reversed.
fn reversed() -> Deco
    ensures { result ≡ reversed }
{
    let mut style = Style::plain();
    style.reverse = true;
    Deco::mark(
        style,
        Inclusive {
            start: false,
            end: false,
        },
    )
}

/// A set with the line decorations that effects make in the document, if it is declared.
fn with_lines(
    alloc: Global,
    set: DecoSet,
    document: Option<&Text>,
    effects: &[ShownEffect],
) -> Result<DecoSet, AllocError>
    ensures { IfOk result (λ all. all ≡ with_ranges (line_of (option_map (λ t. t.characters) (option_copied document.entry))) set effects.now) }
{
    match document {
        Some(text) => with_text_lines(alloc, set, text, effects),
        None => Ok(set),
    }
}

/// A set with the line decorations that effects make in a document.
fn with_text_lines(
    alloc: Global,
    set: DecoSet,
    text: &Text,
    effects: &[ShownEffect],
) -> Result<DecoSet, AllocError>
    ensures { IfOk result (λ all. all ≡ with_ranges (line_of (Some text.now.characters)) set effects.now) }
{
    let mut all = set;
    for effect in effects {
        if let Some(line) = line_of(text, effect) {
            all = with_range(alloc, &all, line)?;
        }
    }
    Ok(all)
}

/// The line decoration that an effect makes in a document: its value is the start of a line.
fn line_of(text: &Text, effect: &ShownEffect) -> Option<Ranged<Deco>>
    ensures line { result ≡ line_of (Some text.now.characters) effect.now }
    ensures forward { IfSome result (λ range. range.from ≤ range.to) }
{
    let number = number_in(&effect.value)?;
    line_at(text, place_in(number)?)
}

/// A line decoration in bold at the start of a line of a document.
fn line_at(text: &Text, place: u32) -> Option<Ranged<Deco>>
    ensures line { result ≡ line_at text.now.characters place }
    ensures forward { IfSome result (λ range. range.from ≤ range.to) }
{
    let mut style = Style::plain();
    style.bold = true;
    match place_line(text, place, style) {
        Ok(range) => Some(range),
        Err(_) => None,
    }
}
