ghost use Rattle.std.specs.Prelude.{◌≡◌, ◌<◌, List, ℕ, length, IsErr, IfOk, OnOk, OnErr, Some, string_bytes};
ghost use Rattle.cm_outside.specs.Lines.{max_line};
ghost use Rattle.script.specs.Reading.{Gives};
ghost use Rattle.replies.specs.Replies.{reply_text};
ghost use Rattle.collab_run.specs.Playing.{act};
ghost use Rattle.collab_run.specs.Transcript.{PlainPlay, fresh, outcome, after, reply, machine};

use crate::begin::begin;
use crate::command::CollabCommand;
use crate::deliver::deliver;
use crate::events::{local, publish, send, state};
use crate::outcome::Outcome;
use cm_outside::StoreFault;
use collab::World;
use line_run::Answers;
use replies::{Answer, Reply, reply_text};
use script::{LineError, Refusal, line_command};
use std::alloc::{AllocError, Global};
use std::marker::Model;

/// What a command does to the world, if one was begun, or the first refusal. The only other error is out of memory.
fn act(alloc: Global, command: CollabCommand, world: &Option<World>) -> Result<Outcome, LineError>
    ensures { Gives (λ o. o) result (act command world.now) }
{
    match command {
        CollabCommand::Begin(request) => begin(alloc, request),
        CollabCommand::Local { client, changes } => local(world, &client, changes),
        CollabCommand::Send { client } => send(world, &client),
        CollabCommand::Publish { from, to } => publish(alloc, world, from, to),
        CollabCommand::Deliver { message, client } => deliver(alloc, world, message, &client),
        CollabCommand::State => state(world),
    }
}

/// What a line, without its LF, does to the world, if one was begun, or the first refusal. The only other error is out of memory.
#[tactic(auto, unfolding(crate::specs::Transcript::outcome))]
fn outcome_of(alloc: Global, line: &[u8], world: &Option<World>) -> Result<Outcome, LineError>
    ensures { Gives (λ o. o) result (outcome line.now world.now) }
{
    let command = line_command(alloc, line)?;
    act(alloc, command, world)
}

fn answered(alloc: Global, answer: Answer) -> Result<String, AllocError>
    ensures { IfOk result (λ r. string_bytes r ≡ reply_text (Reply.Ok answer)) }
{
    reply_text(alloc, &Reply::Ok(answer))
}

fn refused(alloc: Global, refusal: Refusal) -> Result<String, AllocError>
    ensures { IfOk result (λ r. string_bytes r ≡ reply_text (Reply.No refusal)) }
{
    reply_text(alloc, &Reply::No(refusal))
}

/// A play of collaboration: lines begin a world, let events happen in it and ask for its text.
#[derive(Drop)]
pub struct Play {
    alloc: Global,
    world: Option<World>,
}

impl Model for Play {
    ghost use Rattle.collab_run.specs.Transcript.{PlainPlay};

    ghost Value = { PlainPlay };

    ghost view = { λ p. record { world = p.world } };
}

impl Play {
    /// A play in which no world was begun.
    pub fn new(alloc: Global) -> Play
        ensures { result ≡ fresh }
    {
        Play { alloc, world: None }
    }

    /// Puts a new world in place of the one before, and gives the reply. The only error is out of memory, which changes nothing.
    fn change(&mut self, answer: Answer, world: World) -> Result<String, AllocError>
        ensures reply { IfOk result (λ r. string_bytes r ≡ reply_text (Reply.Ok answer)) }
        ensures changed { OnOk result (self.new ≡ record { world = Some world }) }
        ensures err { OnErr result (self.new ≡ self.old) }
    {
        let reply = answered(self.alloc, answer)?;
        self.world = Some(world);
        Ok(reply)
    }

    /// Does what a line, without its LF, asks for, and gives the reply with its LF. The only error is out of memory.
    /// A refused line changes nothing, and neither does out of memory.
    #[tactic(auto, unfolding(crate::specs::Transcript::after, crate::specs::Transcript::reply))]
    pub fn line(&mut self, line: &[u8]) -> Result<String, AllocError>
        ensures reply { IfOk result (λ r. string_bytes r ≡ reply line.now self.old) }
        ensures after { OnOk result (self.new ≡ after line.now self.old) }
        ensures refused { IsErr (outcome line.now self.old.world) → self.new ≡ self.old }
        ensures err { OnErr result (self.new ≡ self.old) }
    {
        match outcome_of(self.alloc, line, &self.world) {
            Err(LineError::NoMemory) => Err(AllocError),
            Err(LineError::Refused(refusal)) => refused(self.alloc, refusal),
            Ok(Outcome::Answered(answer)) => answered(self.alloc, answer),
            Ok(Outcome::Changed(answer, world)) => self.change(answer, world),
        }
    }

    /// The reply to a line of more bytes than a line may have, which changes nothing.
    #[tactic(auto, unfolding(crate::specs::Transcript::after, crate::specs::Transcript::reply, crate::specs::Transcript::outcome, script::specs::Lines::line_command))]
    fn long_line(&self) -> Result<String, AllocError>
        ensures reply { IfOk result (λ r. (line : List ℕ) → max_line < length line → string_bytes r ≡ reply line self.now) }
        ensures after { (line : List ℕ) → max_line < length line → self.now ≡ after line self.now }
    {
        refused(self.alloc, Refusal::LineTooLong)
    }
}

impl Answers<(), ()> for Play {
    ghost Plain = { PlainPlay };

    ghost told = { λ p store. Some p };

    ghost machine = { machine };

    ghost faults = { λ store. 0 };

    ghost can_lend = { λ with. Unit {0} };

    fn answer(&mut self, _with: &(), line: &[u8], _store: &mut ()) -> Result<String, StoreFault> {
        match self.line(line) {
            Ok(reply) => Ok(reply),
            Err(_) => Err(StoreFault::NoMemory),
        }
    }

    fn answer_long(&mut self, _store: &()) -> Result<String, AllocError> {
        self.long_line()
    }
}
