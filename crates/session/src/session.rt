ghost use Rattle.std.specs.Prelude.{◌≡◌, ◌≢◌, ◌≤◌, ◌<◌, ◌∷◌, [], ℕ, List, Err, Option, Result, length, true, IfOk, IfSome, Ok, OnErr, Some, string_bytes};
ghost use Rattle.cm_outside.specs.Answering.{Answered};
ghost use Rattle.cm_outside.specs.Faults.{Rose};
ghost use Rattle.cm_outside.specs.Files.{Files, found_bytes};
ghost use Rattle.cm_outside.specs.Lines.{max_line};
ghost use Rattle.replies.specs.Replies.{reply_text};
ghost use Rattle.replies.specs.declared.answer.Answer.TheVariants as answers;
ghost use Rattle.replies.specs.declared.answer.Reply.TheVariants as replies;
ghost use Rattle.requests.specs.declared.request.Request.TheVariants as requests;
ghost use Rattle.script.specs.declared.refusal.Refusal.TheVariants.{LineTooLong};
ghost use Rattle.script.specs.Reading.{Gives};
ghost use Rattle.screen.specs.Head.{ShowsHead};
ghost use Rattle.values.specs.Whole.{IsWhole};
ghost use Rattle.workload.specs.MadeLines.{edit_line, line_of};
ghost use Rattle.session.specs.declared.outcome.Outcome.TheVariants as outcomes;
ghost use Rattle.session.specs.Outcomes.{Done, done_by};
ghost use Rattle.session.specs.Filing.{opened, with_file};
ghost use Rattle.session.specs.PrivateSession.{Carried, Carries, Declares, DoneWith, IsPut, IsPutIn, IsRefusalText, IsTold, IsWritten, is_inner};
ghost use Rattle.session.specs.Session.{act, declare};
ghost use Rattle.session.specs.State.{Desk, desk_of, fresh, plain_session, plain_state, window_of};
ghost use Rattle.session.specs.Transcript.{machine};
ghost use Rattle.session.specs.Update.{update};
ghost use Rattle.session.specs.Views.{view_of};

use crate::filing::{opened, saved};
use crate::keys::Keys;
use crate::outcome::{Next, Outcome};
use crate::outcomes::outcome_of;
use crate::update::{update, update_one_spec};
use cm_outside::{Store, StoreFault};
use cm_plain::Str;
use line_run::Answers;
use listed::Listed;
use made_requests::edit_spec;
use made_run::AnswersMade;
use names::{Names, Nodes, all_found, declare};
use registry::Registry;
use replies::{Answer, Reply, reply_text};
use requests::{Declaration, OpenRequest, Request, SpecRequest};
use script::{LineError, Refusal, line_command};
use state::State;
use std::alloc::{AllocError, Global};
use std::marker::Model;
use values::{Kit, Meanings};
use viewport::Viewport;
use workload::{Edit, MadeLine};

/// The size of a session's first window.
const ROWS: u32 = 24;

const COLS: u32 = 80;

/// A session: lines declare facets, fields and effects, start a state over them, change it, show it in a window and ask for it.
#[derive(Drop)]
pub struct Session<M: Meanings> {
    pub(crate) alloc: Global,
    pub(crate) names: Names,
    pub(crate) registry: Registry<M>,
    pub(crate) keys: Keys<M>,
    pub(crate) state: Option<State<M>>,
    pub(crate) count: u64,
    pub(crate) window: Viewport,
}

impl<M: Meanings> Model for Session<M> {
    ghost use Rattle.std.specs.Prelude.{IfSome};
    ghost use Rattle.std.specs.Coded.{codes};
    ghost use Rattle.cm_plain.specs.Datum.{coded_datum};
    ghost use Rattle.facet_slots.specs.Slotted.{Slotted};
    ghost use Rattle.names.specs.Adding.{world};
    ghost use Rattle.session.specs.PrivateSession.{IsPutIn};
    ghost use Rattle.session.specs.State.{Held};

    ghost Value = { Held };

    ghost coded = { Prim.hlevel (codes, coded_datum) };

    ghost view = { λ s. record { world = world s.names s.registry; state = s.state; count = s.count; window = s.window } };

    ghost invariant = { λ s. IfSome s.state (λ (state : Slotted). IsPutIn (record { world = world s.names s.registry; state = s.state; count = s.count; window = s.window }) state s.window) };
}

/// The line that answers. `Err`: out of memory.
#[inline(always)]
fn answer_text(alloc: Global, answer: Answer) -> Result<String, AllocError>
    ensures { IfOk result (λ r. string_bytes r ≡ reply_text (replies.Ok answer)) }
{
    reply_text(alloc, &Reply::Ok(answer))
}

/// The line that answers with a refusal. `Err`: out of memory.
fn refused_text(alloc: Global, refusal: Refusal) -> Result<String, AllocError>
    ensures { IfOk result (λ r. string_bytes r ≡ reply_text (replies.No refusal)) }
{
    reply_text(alloc, &Reply::No(refusal))
}

/// The line that answers with why a line is not carried out. `Err`: out of memory.
fn refusal_text(alloc: Global, error: LineError) -> Result<String, AllocError>
    ensures { IfOk result (λ r. IsRefusalText error (string_bytes r)) }
{
    match error {
        LineError::NoMemory => Err(AllocError),
        LineError::Refused(refusal) => refused_text(alloc, refusal),
    }
}

/// A line that was made without the store, or out of memory.
fn told(text: Result<String, AllocError>) -> Result<String, StoreFault>
    ensures { IsTold text result }
{
    match text {
        Ok(text) => Ok(text),
        Err(_) => Err(StoreFault::NoMemory),
    }
}

/// A window of the first size.
fn first_window() -> Viewport
    ensures { result ≡ window_of 24 80 }
{
    match Viewport::new(ROWS, COLS) {
        Ok(window) => window,
        Err(_) => unreachable!(),
    }
}

impl<M: Meanings> Session<M> {
    /// A session in which no document was started, with what is declared from the start and a window of 24 rows and 80 columns.
    /// `Err`: out of memory.
    pub fn new(alloc: Global) -> Result<Session<M>, AllocError>
        ensures { IfOk result (λ s. plain_session s ≡ fresh) }
    {
        let names = Names::new(alloc)?;
        let registry = Registry::new(alloc)?;
        let keys = Keys::new(alloc, &registry)?;
        let window = first_window();
        Ok(Session {
            alloc,
            names,
            registry,
            keys,
            state: None,
            count: 0,
            window,
        })
    }

    /// Does what a line, without its LF, asks for, and gives the reply with its LF. A refused line changes nothing. `Failed` comes
    /// only where the store's count of faults rose, and leaves all as before but for a file that was to be saved, which may be as
    /// asked; `NoMemory` changes nothing.
    pub fn line<D: Store>(
        &mut self,
        kit: &Kit<M>,
        store: &mut D,
        line: &[u8],
    ) -> Result<String, StoreFault>
        requires whole { IsWhole M.rules kit.now }
        ensures answered { IfSome (desk_of (plain_session self.old) (D.files store.old)) (λ d. Answered (machine M.rules) line.now d (desk_of (plain_session self.new) (D.files store.new)) result) }
        ensures later { D.faults store.old ≤ D.faults store.new }
        ensures cause { result ≡ Err StoreFault.Failed → Rose (D.faults store.old) (D.faults store.new) }
    {
        match line_command(self.alloc, line) {
            Err(error) => told(refusal_text(self.alloc, error)),
            Ok(request) => self.request(kit, store, request),
        }
    }

    /// Does what the line of a made workload asks for that is given as a value, and gives the reply, as `line` does. The line of
    /// a transaction is neither written nor read.
    fn made_line<D: Store>(
        &mut self,
        kit: &Kit<M>,
        store: &mut D,
        line: MadeLine,
    ) -> Result<String, StoreFault>
        requires whole { IsWhole M.rules kit.now }
        ensures answered { IfSome (desk_of (plain_session self.old) (D.files store.old)) (λ d. Answered (machine M.rules) (line_of line) d (desk_of (plain_session self.new) (D.files store.new)) result) }
        ensures later { D.faults store.old ≤ D.faults store.new }
        ensures cause { result ≡ Err StoreFault.Failed → Rose (D.faults store.old) (D.faults store.new) }
    {
        match line {
            MadeLine::Text(text) => self.line(kit, store, text.as_bytes()),
            MadeLine::Edit { time, edit } => self.made_edit(kit, time, edit),
        }
    }

    /// Does what the line of a transaction asks for that does an edit at a time in milliseconds, and gives the reply. No store is
    /// asked, so `Failed` doesn't come and the files, whichever they are, stay; `NoMemory` changes nothing.
    fn made_edit(&mut self, kit: &Kit<M>, time: u32, edit: Edit) -> Result<String, StoreFault>
        requires whole { IsWhole M.rules kit.now }
        ensures answered { (files : Option Files) → IfSome (desk_of (plain_session self.old) files) (λ d. Answered (machine M.rules) (edit_line time edit) d (desk_of (plain_session self.new) files) result) }
        ensures unfailed { result ≢ Err StoreFault.Failed }
    {
        match edit_spec(self.alloc, time, edit) {
            Err(_) => Err(StoreFault::NoMemory),
            Ok(spec) => told(self.updated_one_spec(kit, spec)),
        }
    }

    /// Does what is asked for.
    fn request<D: Store>(
        &mut self,
        kit: &Kit<M>,
        store: &mut D,
        request: Request,
    ) -> Result<String, StoreFault>
        requires whole { IsWhole M.rules kit.now }
        ensures carried { Carries M.rules request self.old self.new (D.files store.old) (D.files store.new) result }
        ensures later { D.faults store.old ≤ D.faults store.new }
        ensures cause { result ≡ Err StoreFault.Failed → Rose (D.faults store.old) (D.faults store.new) }
    {
        match request {
            Request::Open(request) => self.open(kit, store, &request),
            Request::Save(name) => self.save(store, &name),
            other => told(self.inner(kit, other)),
        }
    }

    /// The command `open`. The file is looked up once its extensions are known.
    fn open<D: Store>(
        &mut self,
        kit: &Kit<M>,
        store: &mut D,
        request: &OpenRequest,
    ) -> Result<String, StoreFault>
        requires whole { IsWhole M.rules kit.now }
        ensures carried { Carries M.rules (requests.Open request.now) self.old self.new (D.files store.old) (D.files store.new) result }
        ensures later { D.faults store.old ≤ D.faults store.new }
        ensures cause { result ≡ Err StoreFault.Failed → Rose (D.faults store.old) (D.faults store.new) }
    {
        match all_found::<Nodes>(self.alloc, &self.names, request.extensions.as_slice()) {
            Err(error) => told(refusal_text(self.alloc, error)),
            Ok(base) => self.open_over(kit, store, &request.file, base.as_slice()),
        }
    }

    /// Opens a file over these nodes.
    fn open_over<D: Store>(
        &mut self,
        kit: &Kit<M>,
        store: &mut D,
        name: &Str,
        base: &[u32],
    ) -> Result<String, StoreFault>
        requires whole { IsWhole M.rules kit.now }
        ensures carried { IfSome (D.files store.old) (λ files. Carried (opened M.rules (plain_session self.old) name.now base.now (files name.now)) files files self.old self.new (D.files store.new) result) }
        ensures later { D.faults store.old ≤ D.faults store.new }
        ensures cause { result ≡ Err StoreFault.Failed → Rose (D.faults store.old) (D.faults store.new) }
    {
        let found = store.load(name)?;
        told(self.open_found(kit, name, base, found))
    }

    /// Opens what was found under a name, over these nodes.
    fn open_found(
        &mut self,
        kit: &Kit<M>,
        name: &Str,
        base: &[u32],
        found: Option<Vec<u8>>,
    ) -> Result<String, AllocError>
        requires whole { IsWhole M.rules kit.now }
        ensures { DoneWith (opened M.rules (plain_session self.old) name.now base.now (found_bytes found)) self.old self.new result }
    {
        let outcome = opened(self, kit, name, base, found);
        self.settle(outcome)
    }

    /// The command `save`.
    fn save<D: Store>(&mut self, store: &mut D, name: &Str) -> Result<String, StoreFault>
        ensures carried { Carries M.rules (requests.Save name.now) self.old self.new (D.files store.old) (D.files store.new) result }
        ensures later { D.faults store.old ≤ D.faults store.new }
        ensures cause { result ≡ Err StoreFault.Failed → Rose (D.faults store.old) (D.faults store.new) }
    {
        match saved(self) {
            Err(error) => told(refusal_text(self.alloc, error)),
            Ok(bytes) => save_bytes(self.alloc, store, name, bytes.as_slice()),
        }
    }

    /// Does what is asked for without the store.
    fn inner(&mut self, kit: &Kit<M>, request: Request) -> Result<String, AllocError>
        requires whole { IsWhole M.rules kit.now }
        requires inner { is_inner request ≡ true }
        ensures { (files : Files) → DoneWith (act M.rules request (plain_session self.old) files) self.old self.new result }
    {
        match request {
            Request::Declare(declaration) => self.declare(&declaration),
            Request::Update(specs) => self.updated(kit, specs),
            other => {
                let outcome = outcome_of(self, kit, &other);
                self.settle(outcome)
            }
        }
    }

    /// The command `update`.
    fn updated(&mut self, kit: &Kit<M>, specs: Listed<SpecRequest>) -> Result<String, AllocError>
        requires whole { IsWhole M.rules kit.now }
        ensures { DoneWith (update M.rules (plain_session self.old) specs) self.old self.new result }
    {
        let outcome = update(self, kit, specs);
        self.settle(outcome)
    }

    /// The command `update` with one spec.
    fn updated_one_spec(&mut self, kit: &Kit<M>, spec: SpecRequest) -> Result<String, AllocError>
        requires whole { IsWhole M.rules kit.now }
        ensures { DoneWith (update M.rules (plain_session self.old) (spec ∷ [])) self.old self.new result }
    {
        let outcome = update_one_spec(self, kit, spec);
        self.settle(outcome)
    }

    /// Declares something, whole or not at all. The answer is made first.
    fn declare(&mut self, declaration: &Declaration) -> Result<String, AllocError>
        ensures { DoneWith (declare M.rules (plain_session self.old) declaration.now) self.old self.new result }
    {
        let done = answer_text(self.alloc, Answer::Nothing)?;
        match self.declared(declaration) {
            Ok(()) => Ok(done),
            Err(error) => refusal_text(self.alloc, error),
        }
    }

    /// What is declared next, with its name.
    fn declared(&mut self, declaration: &Declaration) -> Result<(), LineError>
        ensures { Declares M.rules declaration.now self.old self.new result }
    {
        declare(self.alloc, &mut self.registry, &mut self.names, declaration)
    }

    /// Puts another state in place, with its count and its window.
    #[inline(always)]
    pub(crate) fn put(&mut self, next: Next<State<M>>)
        requires { IsPutIn self.old next.state next.window }
        ensures { self.new ≡ record self.old { state = Some next.state; count = next.count; window = next.window } }
    {
        self.state = Some(next.state);
        self.count = next.count;
        self.window = next.window;
    }

    /// Puts another state in place, and answers. The reply is made first.
    fn change(&mut self, answer: Answer, next: Next<State<M>>) -> Result<String, AllocError>
        requires { IsPutIn self.old next.state next.window }
        ensures { DoneWith (Ok (done_by (plain_session self.old) (outcomes.Changed answer next))) self.old self.new result }
    {
        let reply = answer_text(self.alloc, answer)?;
        self.put(next);
        Ok(reply)
    }

    /// Puts another window in place, and answers. The reply is made first.
    fn show(&mut self, window: Viewport) -> Result<String, AllocError>
        requires { IfSome self.old.state (λ slots. ShowsHead (view_of (plain_state slots) window)) }
        ensures { DoneWith (Ok (done_by (plain_session self.old) (outcomes.Viewed window))) self.old self.new result }
    {
        let reply = answer_text(self.alloc, Answer::Nothing)?;
        self.window = window;
        Ok(reply)
    }

    /// Puts in place what a command makes, or answers with its refusal. The reply is made first.
    #[inline(always)]
    fn settle(
        &mut self,
        outcome: Result<Outcome<State<M>>, LineError>,
    ) -> Result<String, AllocError>
        requires put { IfOk outcome (λ done. IsPut self.old done) }
        ensures { (out : Result Done Refusal) → Gives (done_by (plain_session self.old)) outcome out → DoneWith out self.old self.new result }
    {
        match outcome {
            Err(error) => refusal_text(self.alloc, error),
            Ok(Outcome::Answered(answer)) => answer_text(self.alloc, answer),
            Ok(Outcome::Changed(answer, next)) => self.change(answer, next),
            Ok(Outcome::Viewed(window)) => self.show(window),
        }
    }

    /// The reply to a line of more bytes than a line may have, which changes nothing.
    fn long_line(&self) -> Result<String, AllocError>
        ensures reply { IfOk result (λ r. string_bytes r ≡ reply_text (replies.No LineTooLong)) }
    {
        refused_text(self.alloc, Refusal::LineTooLong)
    }
}

impl<M: Meanings, D: Store> Answers<Kit<M>, D> for Session<M> {
    ghost Plain = { Desk };

    ghost told = { λ session store. desk_of (plain_session session) (D.files store) };

    ghost machine = { machine M.rules };

    ghost faults = { D.faults };

    ghost can_lend = { λ kit. IsWhole M.rules kit };

    fn answer(&mut self, with: &Kit<M>, line: &[u8], store: &mut D) -> Result<String, StoreFault> {
        self.line(with, store, line)
    }

    fn answer_long(&mut self, store: &D) -> Result<String, AllocError>
        ensures reply { IfSome (desk_of (plain_session self.old) (D.files store.now)) (λ d. IfOk result (λ r. (line : List ℕ) → max_line < length line
            → (string_bytes r ≡ (machine M.rules).reply line d) × (desk_of (plain_session self.new) (D.files store.now) ≡ Some ((machine M.rules).after line d)))) }
        ensures memory { OnErr result (desk_of (plain_session self.new) (D.files store.now) ≡ desk_of (plain_session self.old) (D.files store.now)) }
    {
        self.long_line()
    }
}

impl<M: Meanings, D: Store> AnswersMade<Kit<M>, D> for Session<M> {
    fn answer_made(
        &mut self,
        with: &Kit<M>,
        line: MadeLine,
        store: &mut D,
    ) -> Result<String, StoreFault> {
        self.made_line(with, store, line)
    }
}

/// Saves bytes under a name, and answers with how many they are. The reply is made first.
fn save_bytes<D: Store>(
    alloc: Global,
    store: &mut D,
    name: &Str,
    bytes: &[u8],
) -> Result<String, StoreFault>
    ensures saves { IfSome (D.files store.old) (λ files. IsWritten (with_file files name.now bytes.now) files (reply_text (replies.Ok (answers.Bytes (length bytes.now)))) (D.files store.new) result) }
    ensures later { D.faults store.old ≤ D.faults store.new }
    ensures cause { result ≡ Err StoreFault.Failed → Rose (D.faults store.old) (D.faults store.new) }
{
    let reply = told(answer_text(alloc, Answer::Bytes(bytes.len() as u64)))?;
    store.save(name, bytes)?;
    Ok(reply)
}
