// Commands that are done one after the other.
use crate::moves::text;
use change_set::{Change, ChangeSet, InsertedText};
use cm_plain::{Plain, Str};
use commands::{
    EditScene, Move, delete_back, delete_forward, insert, move_to, newline, redo, redo_selection,
    select_all, undo, undo_selection,
};
use history::{History, StepInput};
use line_tree::{MAX_LEN, Text};
use listed::Listed;
use selection::{Selection, first_outside};
use std::alloc::{AllocError, Global};
use std::test::Fail;
use transaction::{Annotation, SelectionSpec, Spec};
use values::Val;

/// What is done.
#[derive(Clone, Copy)]
pub(crate) enum Act {
    Insert(&'static [char]),
    Newline,
    DeleteBack,
    DeleteForward,
    Move(Move),
    Extend(Move),
    SelectAll,
    Undo,
    Redo,
    UndoSelection,
    RedoSelection,
    /// Not a command: a selection is given.
    Select(u32, u32),
    /// Not a command: a character is put in, and the change is not recorded.
    Unrecorded(u32, char),
}

/// A document, the selection in it, and its history.
#[derive(Drop)]
pub(crate) struct Player {
    pub(crate) document: Text,
    pub(crate) selection: Selection,
    pub(crate) history: History,
}

/// A player at the start.
pub(crate) fn started(
    alloc: Global,
    characters: &[char],
    selected: (u32, u32),
) -> Result<Player, AllocError> {
    Ok(Player {
        document: text(alloc, characters)?,
        selection: Selection::single(alloc, selected.0, selected.1)?,
        history: History::empty(alloc)?,
    })
}

/// What is looked at.
pub(crate) fn scene_of(player: &Player, read_only: bool, time: i64) -> EditScene<'_> {
    EditScene {
        doc: &player.document,
        selection: &player.selection,
        read_only,
        history: Some(&player.history),
        time: Some(time),
    }
}

fn inserted(
    alloc: Global,
    scene: &EditScene<'_>,
    characters: &[char],
) -> Result<Option<Spec<Val>>, AllocError> {
    let text = text(alloc, characters)?;
    insert(alloc, scene, &text)
}

/// The commands that look at places, where the selection lies in the document.
fn placed(alloc: Global, scene: &EditScene<'_>, act: Act) -> Result<Option<Spec<Val>>, AllocError> {
    if first_outside(scene.selection.ranges(), scene.doc.len()).is_some() {
        return Err(AllocError);
    }
    match act {
        Act::DeleteBack => delete_back(alloc, scene),
        Act::DeleteForward => delete_forward(alloc, scene),
        Act::Move(direction) => move_to(alloc, scene, direction, false),
        Act::Extend(direction) => move_to(alloc, scene, direction, true),
        _ => Ok(None),
    }
}

/// A spec of changes, a selection and an annotation, as no command makes one.
fn other(
    alloc: Global,
    changes: Listed<Change>,
    selection: Option<SelectionSpec>,
    annotations: Listed<Annotation>,
) -> Spec<Val> {
    Spec {
        changes,
        selection,
        effects: Listed::empty(alloc),
        annotations,
        user_event: None,
        sequential: false,
        filter: true,
    }
}

/// A given selection.
fn selecting(alloc: Global, anchor: u32, head: u32) -> Result<Spec<Val>, AllocError> {
    let mut ranges = Listed::empty(alloc);
    ranges.push(selection::Range { anchor, head })?;
    let given = SelectionSpec { ranges, main: 0 };
    Ok(other(
        alloc,
        Listed::empty(alloc),
        Some(given),
        Listed::empty(alloc),
    ))
}

/// A change that is not recorded.
fn unrecorded(alloc: Global, at: u32, character: char) -> Result<Spec<Val>, AllocError> {
    let insert = InsertedText::of(text(alloc, &[character])?);
    let mut changes = Listed::empty(alloc);
    changes.push(Change::Span {
        from: at,
        to: at,
        insert,
    })?;
    let mut annotations = Listed::empty(alloc);
    annotations.push(Annotation {
        kind: Str::of_text(alloc, "addToHistory")?,
        value: Plain::Bool(false),
    })?;
    Ok(other(alloc, changes, None, annotations))
}

/// What an act sends.
pub(crate) fn sent(
    alloc: Global,
    scene: &EditScene<'_>,
    act: Act,
) -> Result<Option<Spec<Val>>, AllocError> {
    match act {
        Act::Insert(characters) => inserted(alloc, scene, characters),
        Act::Newline => newline(alloc, scene),
        Act::SelectAll => select_all(alloc, scene),
        Act::Undo => undo(alloc, scene),
        Act::Redo => redo(alloc, scene),
        Act::UndoSelection => undo_selection(alloc, scene),
        Act::RedoSelection => redo_selection(alloc, scene),
        Act::Select(anchor, head) => Ok(Some(selecting(alloc, anchor, head)?)),
        Act::Unrecorded(at, character) => Ok(Some(unrecorded(alloc, at, character)?)),
        act => placed(alloc, scene, act),
    }
}

/// The value of the first annotation of a kind.
pub(crate) fn note<'a>(spec: &'a Spec<Val>, kind: &str) -> Option<&'a Plain> {
    for annotation in spec.annotations.as_slice() {
        let mut same = annotation.kind.chars().len() == kind.chars().count();
        for (a, b) in annotation.kind.chars().iter().zip(kind.chars()) {
            same = same && *a == b;
        }
        if same {
            return Some(&annotation.value);
        }
    }
    None
}

fn number(value: Option<&Plain>) -> Option<i64> {
    match value {
        Some(Plain::Int(number)) => Some(*number),
        _ => None,
    }
}

fn truth(value: Option<&Plain>) -> Option<bool> {
    match value {
        Some(Plain::Bool(truth)) => Some(*truth),
        _ => None,
    }
}

fn given(alloc: Global, spec: &Spec<Val>) -> Result<Option<Selection>, Fail> {
    match &spec.selection {
        Some(given) => Ok(Some(Selection::create(alloc, given.ranges.as_slice(), given.main)?)),
        None => Ok(None),
    }
}

/// The step of a history that a spec's changes make, with the selection that it gives, if it gives one.
fn step_input<'a>(
    player: &'a Player,
    spec: &'a Spec<Val>,
    changes: &'a ChangeSet,
    given: Option<&'a Selection>,
) -> StepInput<'a> {
    StepInput {
        changes,
        effects: &[],
        document: &player.document,
        selection: &player.selection,
        given,
        min_depth: 100,
        delay: 500,
        time: number(note(spec, "time")),
        user_event: spec.user_event.as_ref(),
        add_to_history: truth(note(spec, "addToHistory")),
        isolate: None,
        from_history: number(note(spec, "fromHistory")),
    }
}

/// The selection after a spec.
fn selection_after(
    alloc: Global,
    player: &Player,
    spec: &Spec<Val>,
    changes: &ChangeSet,
) -> Result<Selection, Fail> {
    if let Some(selection) = given(alloc, spec)? {
        return Ok(selection);
    }
    let desc = changes.desc()?;
    match first_outside(player.selection.ranges(), desc.len()) {
        Some(_) => Err("a selection in the document".into()),
        None => Ok(player.selection.map(&desc)?),
    }
}

/// The history after a step.
fn history_after(history: &History, input: &StepInput) -> Result<History, Fail> {
    let len = input.document.len();
    if input.changes.len() != len || len > MAX_LEN || input.changes.new_len() > MAX_LEN {
        return Err("a short document".into());
    }
    if first_outside(input.selection.ranges(), len).is_some() {
        return Err("a selection in the document".into());
    }
    Ok(history.step(input)?)
}

/// The history after a spec.
fn stepped(
    alloc: Global,
    player: &Player,
    spec: &Spec<Val>,
    changes: &ChangeSet,
) -> Result<History, Fail> {
    let given = given(alloc, spec)?;
    let input = step_input(player, spec, changes, given.as_ref());
    history_after(&player.history, &input)
}

fn applied(changes: &ChangeSet, document: &Text) -> Result<Text, Fail> {
    if changes.len() != document.len() {
        return Err("changes of the document".into());
    }
    Ok(changes.apply(document)?)
}

/// The player after a spec and its changes.
fn changed_by(
    alloc: Global,
    player: &Player,
    spec: &Spec<Val>,
    changes: &ChangeSet,
) -> Result<Player, Fail> {
    let history = stepped(alloc, player, spec, changes)?;
    let selection = selection_after(alloc, player, spec, changes)?;
    let document = applied(changes, &player.document)?;
    Ok(Player {
        document,
        selection,
        history,
    })
}

/// The player after a spec.
fn done(alloc: Global, player: &Player, spec: &Spec<Val>) -> Result<Player, Fail> {
    let len = player.document.len();
    let changes = ChangeSet::of(alloc, spec.changes.as_slice(), len, MAX_LEN)?;
    changed_by(alloc, player, spec, &changes)
}

/// The player after an act, if that does anything.
pub(crate) fn acted(
    alloc: Global,
    player: &Player,
    act: Act,
    time: i64,
) -> Result<Option<Player>, Fail> {
    match sent(alloc, &scene_of(player, false, time), act)? {
        None => Ok(None),
        Some(spec) => Ok(Some(done(alloc, player, &spec)?)),
    }
}
