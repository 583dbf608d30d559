ghost use Rattle.std.specs.Prelude.{IfOk, length, ◌≤◌};
ghost use Rattle.line_tree.specs.Text.{max_len};
ghost use Rattle.transaction.specs.Effects.{HasMaps};

use change_set::{Change, InsertedText};
use cm_plain::{Plain, Str};
use line_tree::{MAX_LEN, Text, cut_len};
use listed::Listed;
use selection::Range;
use std::alloc::{AllocError, Global};
use std::test::Fail;
use transaction::{Effect, EffectKinds, SelectionSpec, Spec};
use values::Val;

/// What replaces characters from a place up to a place.
#[derive(Clone, Copy)]
pub(crate) struct Edit {
    pub(crate) from: u32,
    pub(crate) to: u32,
    pub(crate) insert: &'static str,
}

/// Three kinds: one without a map, which is that of notes, one of a position, and one of a range; or none.
pub(crate) fn kinds(alloc: Global, are_declared: bool) -> Result<EffectKinds, AllocError>
    ensures { IfOk result (λ kinds. HasMaps 2 kinds.maps) }
{
    let mut maps = Listed::empty(alloc);
    if are_declared {
        maps.push(None)?;
        maps.push(Some(1))?;
        maps.push(Some(2))?;
    }
    Ok(EffectKinds {
        maps,
        compartments: 0,
    })
}

/// A text that isn't too long.
pub(crate) fn text(alloc: Global, characters: &str) -> Result<Text, Fail>
    ensures { IfOk result (λ t. length t.characters ≤ max_len) }
{
    let characters = Str::of_text(alloc, characters)?;
    if cut_len(characters.chars()) > MAX_LEN as usize {
        return Err("a short text".into());
    }
    Ok(Text::of(alloc, characters.chars())?)
}

fn changes(alloc: Global, edits: &[Edit]) -> Result<Listed<Change>, Fail> {
    let mut changes = Listed::empty(alloc);
    for edit in edits {
        let insert = InsertedText::of(text(alloc, edit.insert)?);
        changes.push(Change::Span {
            from: edit.from,
            to: edit.to,
            insert,
        })?;
    }
    Ok(changes)
}

fn selection(alloc: Global, ranges: &[(u32, u32)]) -> Result<Option<SelectionSpec>, Fail> {
    if ranges.is_empty() {
        return Ok(None);
    }
    let mut given = Listed::empty(alloc);
    for (anchor, head) in ranges {
        given.push(Range {
            anchor: *anchor,
            head: *head,
        })?;
    }
    Ok(Some(SelectionSpec {
        ranges: given,
        main: 0,
    }))
}

/// Effects of the kind of positions.
fn effects(alloc: Global, places: &[i64]) -> Result<Listed<Effect<Val>>, Fail> {
    let mut effects = Listed::empty(alloc);
    for place in places {
        effects.push(Effect::Kind {
            id: 1,
            value: Val::Plain(Plain::Int(*place)),
        })?;
    }
    Ok(effects)
}

/// What is done: changes, the ranges of a given selection (none: none is given), effects at places, and whether filters are asked.
#[derive(Clone, Copy)]
pub(crate) struct Done {
    pub(crate) edits: &'static [Edit],
    pub(crate) ranges: &'static [(u32, u32)],
    pub(crate) places: &'static [i64],
    pub(crate) filter: bool,
}

/// The spec of what is done.
pub(crate) fn spec(alloc: Global, done: Done) -> Result<Spec<Val>, Fail> {
    let changes = changes(alloc, done.edits)?;
    let selection = selection(alloc, done.ranges)?;
    let effects = effects(alloc, done.places)?;
    Ok(Spec {
        changes,
        selection,
        effects,
        annotations: Listed::empty(alloc),
        user_event: None,
        sequential: false,
        filter: done.filter,
    })
}
