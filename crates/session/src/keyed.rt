// Keys: what each does to a session, and the frame after it.
ghost use Rattle.std.specs.Prelude.{◌≡◌, ◌≤◌, Err, IfOk, IfSome, Result, string_bytes};
ghost use Rattle.cm_outside.specs.Answering.{Answered};
ghost use Rattle.cm_outside.specs.Faults.{Rose};
ghost use Rattle.key_run.specs.Typing.{pressed, shown};
ghost use Rattle.replies.specs.declared.answer.Answer.{Answer};
ghost use Rattle.screen.specs.Head.{ShowsHead};
ghost use Rattle.script.specs.declared.refusal.Refusal.{Refusal as RefusalData};
ghost use Rattle.script.specs.Reading.{Gives};
ghost use Rattle.values.specs.Whole.{IsWhole};
ghost use Rattle.session.specs.declared.outcome.Outcome.TheVariants as outcomes;
ghost use Rattle.session.specs.Frames.{frame_of};
ghost use Rattle.session.specs.Keyed.{after_command, command_at, command_of, files_after_key, key_machine};
ghost use Rattle.session.specs.Outcomes.{Done, done_by};
ghost use Rattle.session.specs.PrivateEditing.{SavedAs, SavedTo, ShownAs};
ghost use Rattle.session.specs.PrivateSession.{IsPut, IsPutIn};
ghost use Rattle.session.specs.Session.{left_by};
ghost use Rattle.session.specs.State.{desk_of, plain_session, plain_state};
ghost use Rattle.session.specs.Views.{view_of};

use crate::doing::do_command;
use crate::filing::saved;
use crate::frames::state_frame;
use crate::outcome::{Next, Outcome};
use crate::session::Session;
use cm_outside::{Store, StoreFault};
use cm_plain::Str;
use requests::{DoRequest, EditorCommand};
use screen::Screen;
use script::LineError;
use state::State;
use std::alloc::{AllocError, Global};
use term_keys::{Key, Move};
use values::{Kit, Meanings};
use viewport::Viewport;

/// A command of the editor at a time, without what other commands have a use for.
fn command_at(alloc: Global, command: EditorCommand, time: i64) -> DoRequest
    ensures { result ≡ command_at command time }
{
    DoRequest {
        command,
        text: Str::empty(alloc),
        direction: Move::Left,
        extend: false,
        time: Some(time),
    }
}

/// The command that inserts a character.
fn insert(alloc: Global, character: char, time: i64) -> Result<DoRequest, AllocError>
    ensures { IfOk result (λ r. Some r ≡ command_of (Key.Char character) time) }
{
    Ok(DoRequest {
        text: Str::of(alloc, &[character])?,
        ..command_at(alloc, EditorCommand::Insert, time)
    })
}

/// The command that moves the cursors, or extends the ranges.
fn move_to(alloc: Global, direction: Move, extend: bool, time: i64) -> DoRequest
    ensures { result ≡ record (command_at EditorCommand.Move time) { direction = direction; extend = extend } }
{
    DoRequest {
        direction,
        extend,
        ..command_at(alloc, EditorCommand::Move, time)
    }
}

/// The command of a key that is pressed at a time, if it is one of the editor's. `Err`: out of memory.
fn command_of(alloc: Global, key: Key, time: i64) -> Result<Option<DoRequest>, AllocError>
    ensures { IfOk result (λ command. command ≡ command_of key time) }
{
    Ok(Some(match key {
        Key::Char(character) => insert(alloc, character, time)?,
        Key::Newline => command_at(alloc, EditorCommand::Newline, time),
        Key::DeleteBack => command_at(alloc, EditorCommand::DeleteBack, time),
        Key::DeleteForward => command_at(alloc, EditorCommand::DeleteForward, time),
        Key::Move(direction) => move_to(alloc, direction, false, time),
        Key::Extend(direction) => move_to(alloc, direction, true, time),
        Key::SelectAll => command_at(alloc, EditorCommand::SelectAll, time),
        Key::Undo => command_at(alloc, EditorCommand::Undo, time),
        Key::Redo => command_at(alloc, EditorCommand::Redo, time),
        Key::Save | Key::Quit => return Ok(None),
    }))
}

impl<M: Meanings> Session<M> {
    /// What the window shows of the state, as bytes for a terminal; no bytes before a state was started. It is drawn on a screen
    /// that keeps the rows which didn't change since it was drawn last. `Err`: out of memory.
    pub fn frame(&self, screen: &mut Screen) -> Result<String, AllocError>
        ensures { IfOk result (λ text. string_bytes text ≡ frame_of (plain_session self.now)) }
    {
        match &self.state {
            Some(state) => state_frame(self, screen, state, &self.window),
            None => Ok(String::new(self.alloc)),
        }
    }

    /// Puts another state in place, with its count and its window, and gives the frame. The frame is made first.
    fn change_shown(
        &mut self,
        screen: &mut Screen,
        next: Next<State<M>>,
    ) -> Result<String, AllocError>
        requires { IsPutIn self.old next.state next.window }
        ensures { (answer : Answer) → ShownAs ((done_by (plain_session self.old) (outcomes.Changed answer next)).session) self.old self.new result }
    {
        let frame = state_frame(self, screen, &next.state, &next.window)?;
        self.put(next);
        Ok(frame)
    }

    /// Puts another window in place, and gives the frame. The frame is made first.
    fn show_shown(&mut self, screen: &mut Screen, window: Viewport) -> Result<String, AllocError>
        requires { IfSome self.old.state (λ slots. ShowsHead (view_of (plain_state slots) window)) }
        ensures { ShownAs ((done_by (plain_session self.old) (outcomes.Viewed window)).session) self.old self.new result }
    {
        let frame = match &self.state {
            Some(state) => state_frame(self, screen, state, &window)?,
            None => String::new(self.alloc),
        };
        self.window = window;
        Ok(frame)
    }

    /// Puts what a command makes in place, if it isn't refused, and gives the frame after it. The frame is made first.
    fn settle_shown(
        &mut self,
        screen: &mut Screen,
        outcome: Result<Outcome<State<M>>, LineError>,
    ) -> Result<String, AllocError>
        requires put { IfOk outcome (λ done. IsPut self.old done) }
        ensures { (out : Result Done RefusalData) → Gives (done_by (plain_session self.old)) outcome out → ShownAs (left_by (plain_session self.old) out) self.old self.new result }
    {
        match outcome {
            Ok(Outcome::Changed(_, next)) => self.change_shown(screen, next),
            Ok(Outcome::Viewed(window)) => self.show_shown(screen, window),
            Ok(Outcome::Answered(_)) => self.frame(screen),
            Err(LineError::Refused(_)) => self.frame(screen),
            Err(LineError::NoMemory) => Err(AllocError),
        }
    }

    /// Does a command, if there is one, and gives the frame after it. A refused command changes nothing.
    fn command_key(
        &mut self,
        kit: &Kit<M>,
        screen: &mut Screen,
        command: Option<DoRequest>,
    ) -> Result<String, AllocError>
        requires { IsWhole M.rules kit.now }
        ensures { ShownAs (after_command M.rules (plain_session self.old) command) self.old self.new result }
    {
        match command {
            Some(command) => {
                let outcome = do_command(self, kit, &command);
                self.settle_shown(screen, outcome)
            }
            None => self.frame(screen),
        }
    }

    /// Writes the document's text to a file, if a state was started.
    fn save_text<D: Store>(&self, store: &mut D, file: &Str) -> Result<(), StoreFault>
        ensures saved { IfSome (D.files store.old) (λ files. SavedTo (files_after_key file.now Key.Save (plain_session self.now) files) files (D.files store.new) result) }
        ensures later { D.faults store.old ≤ D.faults store.new }
        ensures cause { result ≡ Err StoreFault.Failed → Rose (D.faults store.old) (D.faults store.new) }
    {
        match saved(self) {
            Ok(bytes) => store.save(file, bytes.as_slice()),
            Err(LineError::Refused(_)) => Ok(()),
            Err(LineError::NoMemory) => Err(StoreFault::NoMemory),
        }
    }

    /// Writes the document's text to a file, and gives the frame. The frame is made first.
    fn save_key<D: Store>(
        &self,
        store: &mut D,
        screen: &mut Screen,
        file: &Str,
    ) -> Result<String, StoreFault>
        ensures saved { IfSome (D.files store.old) (λ files. SavedAs (plain_session self.now) (files_after_key file.now Key.Save (plain_session self.now) files) files (D.files store.new) result) }
        ensures later { D.faults store.old ≤ D.faults store.new }
        ensures cause { result ≡ Err StoreFault.Failed → Rose (D.faults store.old) (D.faults store.new) }
    {
        let Ok(frame) = self.frame(screen) else {
            return Err(StoreFault::NoMemory);
        };
        self.save_text(store, file)?;
        Ok(frame)
    }

    /// Does what a key asks for that is pressed at a time in milliseconds, and gives the frame after it: a command of the editor is
    /// done, and changes nothing where it is refused; Save writes the document's text to the file, with the save separator in place
    /// of each break; Quit does nothing. `Failed` comes only where the store's count of faults rose, and leaves all as before but
    /// for the file, which may be as asked; `NoMemory` changes nothing.
    pub fn key<D: Store>(
        &mut self,
        kit: &Kit<M>,
        store: &mut D,
        screen: &mut Screen,
        file: &Str,
        key: Key,
        time: i64,
    ) -> Result<String, StoreFault>
        requires whole { IsWhole M.rules kit.now }
        ensures answered { IfSome (desk_of (plain_session self.old) (D.files store.old)) (λ d. Answered (shown (key_machine M.rules file.now)) (pressed key time) d (desk_of (plain_session self.new) (D.files store.new)) result) }
        ensures later { D.faults store.old ≤ D.faults store.new }
        ensures cause { result ≡ Err StoreFault.Failed → Rose (D.faults store.old) (D.faults store.new) }
    {
        if key == Key::Save {
            return self.save_key(store, screen, file);
        }
        let Ok(command) = command_of(self.alloc, key, time) else {
            return Err(StoreFault::NoMemory);
        };
        match self.command_key(kit, screen, command) {
            Ok(frame) => Ok(frame),
            Err(_) => Err(StoreFault::NoMemory),
        }
    }
}
