// The commands of the editor.
ghost use Rattle.std.specs.Prelude.{◌≡◌, [], ◌∷◌, IfOk, length, option_copied, option_map};
ghost use Rattle.configuration.specs.declared.vertex.Vertex.TheVariants.{Field};
ghost use Rattle.typed_keys.specs.Read.{history_in, truth_in};
ghost use Rattle.commands.specs.Editing.{shown_scene};
ghost use Rattle.selection.specs.Selections.{LieIn};
ghost use Rattle.script.specs.Reading.{Gives};
ghost use Rattle.values.specs.Whole.{IsWhole};
ghost use Rattle.session.specs.Doing.{do_command, sent};
ghost use Rattle.session.specs.Outcomes.{done_by};
ghost use Rattle.session.specs.Views.{facet_in, scene_of};
ghost use Rattle.session.specs.State.{plain_session, plain_state};
ghost use Rattle.session.specs.PrivateSession.{IsPut};

use crate::outcome::Outcome;
use crate::putting::done_to;
use crate::session::Session;
use crate::started::started;
use crate::update::step;
use commands::{
    EditScene, delete_back, delete_forward, insert, move_to, newline, redo, redo_selection,
    select_all, undo, undo_selection,
};
use history::History;
use registry::{HISTORY, READ_ONLY};
use replies::Answer;
use requests::{DoRequest, EditorCommand};
use script::{LineError, cut_text};
use state::State;
use std::alloc::{AllocError, Global};
use transaction::Spec;
use values::{Kit, Meanings, Val};

/// What a command sends over a scene, if it has anything to send. `Err`: out of memory.
fn sent(
    alloc: Global,
    scene: &EditScene<'_>,
    request: &DoRequest,
) -> Result<Option<Spec<Val>>, AllocError>
    requires { LieIn (length scene.now.doc.now.characters) scene.now.selection.now.ranges }
    ensures { IfOk result (λ spec. spec ≡ sent request.now.command (shown_scene scene.now) request.now) }
{
    match request.command {
        EditorCommand::Insert => insert(alloc, scene, &cut_text(alloc, &request.text)?),
        EditorCommand::Newline => newline(alloc, scene),
        EditorCommand::DeleteBack => delete_back(alloc, scene),
        EditorCommand::DeleteForward => delete_forward(alloc, scene),
        EditorCommand::Move => move_to(alloc, scene, request.direction, request.extend),
        EditorCommand::SelectAll => select_all(alloc, scene),
        EditorCommand::Undo => undo(alloc, scene),
        EditorCommand::Redo => redo(alloc, scene),
        EditorCommand::UndoSelection => undo_selection(alloc, scene),
        EditorCommand::RedoSelection => redo_selection(alloc, scene),
    }
}

/// What a command sends over a state that is read only or not and has this history, if it has anything to send. `Err`: out of
/// memory.
fn sent_with<M: Meanings>(
    alloc: Global,
    state: &State<M>,
    read_only: bool,
    history: Option<&History>,
    request: &DoRequest,
) -> Result<Option<Spec<Val>>, AllocError>
    requires read_only { read_only ≡ truth_in (facet_in (plain_state state.now) READ_ONLY) }
    requires history { option_copied history ≡ option_map history_in ((plain_state state.now).values (Field HISTORY)) }
    ensures { IfOk result (λ spec. spec ≡ sent request.now.command (scene_of (plain_state state.now) request.now.time) request.now) }
{
    state.known();
    let scene = EditScene {
        doc: state.doc(),
        selection: state.selection(),
        read_only,
        history,
        time: request.time,
    };
    sent(alloc, &scene, request)
}

/// What a command sends over a state, if it has anything to send. `Err`: out of memory.
fn sent_over<M: Meanings>(
    session: &Session<M>,
    state: &State<M>,
    request: &DoRequest,
) -> Result<Option<Spec<Val>>, AllocError>
    ensures { IfOk result (λ spec. spec ≡ sent request.now.command (scene_of (plain_state state.now) request.now.time) request.now) }
{
    let read_only = session.keys.read_only(session.alloc, state)?;
    let history = session.keys.history(session.alloc, state)?;
    sent_with(session.alloc, state, read_only, history.as_ref(), request)
}

/// The command `do`, or its first refusal. The only other error is out of memory.
pub(crate) fn do_command<M: Meanings>(
    session: &Session<M>,
    kit: &Kit<M>,
    request: &DoRequest,
) -> Result<Outcome<State<M>>, LineError>
    requires whole { IsWhole M.rules kit.now }
    ensures put { IfOk result (IsPut session.now) }
    ensures done { Gives (done_by (plain_session session.now)) result (do_command M.rules (plain_session session.now) request.now) }
{
    let old = started(session)?;
    match sent_over(session, old, request)? {
        None => Ok(Outcome::Answered(Answer::Done {
            done: false,
            length: old.doc().len(),
        })),
        Some(spec) => done_to(session, step(session, kit, old, one(session.alloc, spec)?)),
    }
}

/// A list of one spec. `Err`: out of memory.
fn one(alloc: Global, spec: Spec<Val>) -> Result<Vec<Spec<Val>>, AllocError>
    ensures { IfOk result (λ specs. specs.items ≡ spec ∷ []) }
{
    let mut specs = Vec::new(alloc);
    specs.push(spec)?;
    Ok(specs)
}
