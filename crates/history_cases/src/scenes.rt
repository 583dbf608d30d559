use crate::acts::{Act, Step, Twist, step_of, text};
use change_set::ChangeSet;
use cm_plain::{KeptEffect, KeptMap, Plain, Str};
use history::{History, Isolation, StepInput};
use line_tree::{MAX_LEN, Text};
use listed::Listed;
use selection::{Selection, first_outside};
use std::alloc::{AllocError, Global};
use std::test::Fail;

/// A document, the selection in it, its history, and the number that was told last.
#[derive(Drop)]
pub(crate) struct Scene {
    pub(crate) history: History,
    pub(crate) document: Text,
    pub(crate) selected: (u32, u32),
    pub(crate) told: Option<i64>,
}

/// The selection of one range.
fn single(alloc: Global, ends: Option<(u32, u32)>) -> Result<Option<Selection>, AllocError> {
    match ends {
        None => Ok(None),
        Some((anchor, head)) => Ok(Some(Selection::single(alloc, anchor, head)?)),
    }
}

/// The effects that undo what was told: a position that tells the same.
fn telling(alloc: Global, told: Option<i64>) -> Result<Listed<KeptEffect>, AllocError> {
    let mut effects = Listed::empty(alloc);
    if let Some(number) = told {
        effects.push(KeptEffect {
            id: 0,
            map: Some(KeptMap::Position),
            value: Plain::Int(number),
        })?;
    }
    Ok(effects)
}

/// The document and the selection that a step starts from.
#[derive(Drop)]
struct StartState {
    document: Text,
    selection: Selection,
}

fn start_of(alloc: Global, scene: &Scene) -> Result<StartState, AllocError> {
    let (anchor, head) = scene.selected;
    Ok(StartState {
        document: scene.document.try_copy()?,
        selection: Selection::single(alloc, anchor, head)?,
    })
}

/// The input of a step, owned.
#[derive(Drop)]
struct Input {
    changes: ChangeSet,
    effects: Listed<KeptEffect>,
    document: Text,
    selection: Selection,
    given: Option<Selection>,
    min_depth: i64,
    delay: i64,
    time: Option<i64>,
    user_event: Option<Str>,
    add_to_history: Option<bool>,
    isolate: Option<Isolation>,
    from_history: Option<i64>,
}

/// The input of a step at a time, with all else as by default.
fn input_of(alloc: Global, scene: &Scene, step: Step, time: i64) -> Result<Input, AllocError> {
    let effects = telling(alloc, step.told)?;
    let given = single(alloc, step.given)?;
    let start = start_of(alloc, scene)?;
    Ok(Input {
        changes: step.changes,
        effects,
        document: start.document,
        selection: start.selection,
        given,
        min_depth: 100,
        delay: 500,
        time: Some(time),
        user_event: None,
        add_to_history: None,
        isolate: None,
        from_history: step.from,
    })
}

fn apply_twist(alloc: Global, input: &mut Input, twist: Twist) -> Result<(), AllocError> {
    match twist {
        Twist::None => {}
        Twist::Unrecorded => input.add_to_history = Some(false),
        Twist::Isolated(isolation) => input.isolate = Some(isolation),
        Twist::At(time) => input.time = time,
        Twist::Delay(delay) => input.delay = delay,
        Twist::Depth(depth) => input.min_depth = depth,
        Twist::Event(event) => input.user_event = Some(Str::of_text(alloc, event)?),
        Twist::From(number) => input.from_history = Some(number),
        Twist::Tells(number) => input.effects = telling(alloc, Some(number))?,
    }
    Ok(())
}

/// An act as the input of a step, with the selection that it leaves and the number that it tells.
#[derive(Drop)]
struct Request {
    input: Input,
    selected: (u32, u32),
    told: Option<i64>,
}

fn asked(alloc: Global, scene: &Scene, act: Act, twist: Twist, time: i64) -> Result<Request, Fail> {
    let step = step_of(alloc, &scene.history, scene.document.len(), act)?;
    let selected = step.given.unwrap_or((0, 0));
    let told = step.told;
    let mut input = input_of(alloc, scene, step, time)?;
    apply_twist(alloc, &mut input, twist)?;
    Ok(Request {
        input,
        selected,
        told,
    })
}

/// What comes after a step.
fn after(history: &History, request: &Request) -> Result<Scene, Fail> {
    let input = &request.input;
    if input.changes.len() != input.document.len()
        || input.document.len() > MAX_LEN
        || input.changes.new_len() > MAX_LEN
        || first_outside(input.selection.ranges(), input.document.len()).is_some()
    {
        return Err("a step of the document".into());
    }
    let lent = StepInput {
        changes: &input.changes,
        effects: input.effects.as_slice(),
        document: &input.document,
        selection: &input.selection,
        given: input.given.as_ref(),
        min_depth: input.min_depth,
        delay: input.delay,
        time: input.time,
        user_event: input.user_event.as_ref(),
        add_to_history: input.add_to_history,
        isolate: input.isolate,
        from_history: input.from_history,
    };
    Ok(Scene {
        history: history.step(&lent)?,
        document: input.changes.apply(&input.document)?,
        selected: request.selected,
        told: request.told,
    })
}

/// What comes after an act.
pub(crate) fn acted(
    alloc: Global,
    scene: &Scene,
    act: Act,
    twist: Twist,
    time: i64,
) -> Result<Scene, Fail> {
    let request = asked(alloc, scene, act, twist, time)?;
    after(&scene.history, &request)
}

/// A document of these characters and without a history.
fn start(alloc: Global, characters: &[char]) -> Result<Scene, Fail> {
    Ok(Scene {
        history: History::empty(alloc)?,
        document: text(alloc, characters)?,
        selected: (0, 0),
        told: None,
    })
}

/// What comes after some acts from a document, 100 milliseconds apart.
pub(crate) fn played(
    alloc: Global,
    characters: &[char],
    acts: &[(Act, Twist)],
) -> Result<Scene, Fail> {
    let mut scene = start(alloc, characters)?;
    let mut time: i64 = 0;
    for (act, twist) in acts {
        scene = acted(alloc, &scene, *act, *twist, time)?;
        time = time.saturating_add(100);
    }
    Ok(scene)
}
