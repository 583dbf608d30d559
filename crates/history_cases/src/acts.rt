use change_set::{Change, ChangeSet, InsertedText};
use cm_plain::{KeptEffect, Plain};
use history::{History, Isolation, Restore};
use line_tree::{MAX_LEN, Text, cut_len};
use selection::Selection;
use std::alloc::{AllocError, Global};
use std::test::Fail;

/// What is done to a document.
#[derive(Clone, Copy)]
pub(crate) enum Act {
    Insert(u32, char),
    Delete(u32, u32),
    Select(u32, u32),
    Nothing,
    Undo,
    Redo,
    UndoSelection,
    RedoSelection,
}

/// How a step differs from the default.
#[derive(Clone, Copy)]
pub(crate) enum Twist {
    None,
    Unrecorded,
    Isolated(Isolation),
    At(Option<i64>),
    Delay(i64),
    Depth(i64),
    Event(&'static str),
    From(i64),
    Tells(i64),
}

pub(crate) fn text(alloc: Global, characters: &[char]) -> Result<Text, Fail> {
    if cut_len(characters) > MAX_LEN as usize {
        return Err("a short text".into());
    }
    Ok(Text::of(alloc, characters)?)
}

/// The set that replaces a range of a document.
fn span(
    alloc: Global,
    from: u32,
    to: u32,
    characters: &[char],
    len: u32,
) -> Result<ChangeSet, Fail> {
    let insert = InsertedText::of(text(alloc, characters)?);
    let changes = [Change::Span { from, to, insert }];
    Ok(ChangeSet::of(alloc, &changes, len, MAX_LEN)?)
}

/// What a history gives back for an act, if it is one that goes over the history.
pub(crate) fn restored(history: &History, act: Act) -> Result<Option<Restore>, AllocError> {
    match act {
        Act::Undo => history.undo_spec(),
        Act::Redo => history.redo_spec(),
        Act::UndoSelection => history.undo_selection_spec(),
        Act::RedoSelection => history.redo_selection_spec(),
        _ => Ok(None),
    }
}

/// An act as a step: its changes, the selection that it gives, the number of its effect and the number that it comes from.
#[derive(Drop)]
pub(crate) struct Step {
    pub(crate) changes: ChangeSet,
    pub(crate) given: Option<(u32, u32)>,
    pub(crate) told: Option<i64>,
    pub(crate) from: Option<i64>,
}

/// The ends of the main range.
fn ends(selection: &Selection) -> (u32, u32) {
    let main = selection.main();
    (main.anchor, main.head)
}

/// The number of the first effect.
fn number(effects: &[KeptEffect]) -> Option<i64> {
    match effects {
        [
            KeptEffect {
                value: Plain::Int(number),
                ..
            },
            ..
        ] => Some(*number),
        _ => None,
    }
}

/// Given changes, or none of a document of `len` characters.
fn changes_or_none(
    alloc: Global,
    len: u32,
    changes: Option<ChangeSet>,
) -> Result<ChangeSet, AllocError> {
    match changes {
        Some(changes) => Ok(changes),
        None => ChangeSet::empty(alloc, len),
    }
}

/// What is restored, as a step.
fn restoring(alloc: Global, len: u32, restore: Restore) -> Result<Step, AllocError> {
    let given = Some(ends(&restore.selection));
    let told = number(restore.effects.as_slice());
    let from = Some(restore.number);
    let changes = changes_or_none(alloc, len, restore.changes)?;
    Ok(Step {
        changes,
        given,
        told,
        from,
    })
}

/// An act of its own, as a step.
fn acting(alloc: Global, len: u32, act: Act) -> Result<Step, Fail> {
    let changes = match act {
        Act::Insert(at, character) => span(alloc, at, at, &[character], len)?,
        Act::Delete(from, to) => span(alloc, from, to, &[], len)?,
        _ => ChangeSet::empty(alloc, len)?,
    };
    let given = match act {
        Act::Insert(at, _) => Some((at.saturating_add(1), at.saturating_add(1))),
        Act::Select(anchor, head) => Some((anchor, head)),
        _ => None,
    };
    Ok(Step {
        changes,
        given,
        told: None,
        from: None,
    })
}

/// An act over a document of `len` characters with this history, as a step.
pub(crate) fn step_of(alloc: Global, history: &History, len: u32, act: Act) -> Result<Step, Fail> {
    match restored(history, act)? {
        Some(restore) => Ok(restoring(alloc, len, restore)?),
        None => acting(alloc, len, act),
    }
}
