//! The program `ccm`: it answers script lines from standard input to standard output, of one editor or of clients that share a
//! text, edits a file by the keys of standard input, or answers a made workload.
//!
//! `main` makes the devices, which count their faults, hands the words of the command line to
//! `session::run`, and ends with the status of the run; a status other than 0 gives one line to standard error.
#![tactic(auto)]

ghost use Rattle.std.specs.Prelude.{map};
ghost use Rattle.std.specs.String.{string_bytes};
ghost use Rattle.session.specs.Headline.{ProgramRan};
ghost use Rattle.values.specs.Shipped.{shipped};
ghost use Rattle.words.specs.Words.{words_of};

use cm_outside::{Clock, Sink, Source, Status, Store};
use devices::{FolderStore, StandardInput, StandardOutput, SystemClock, complaint};
use session::run;
use shipped_kit::{KitUser, lend_kit};
use shipped_rules::Shipped;
use std::alloc::Global;
use std::process::ExitCode;
use std::rt::Env;
use std::{env, io};
use values::Kit;

/// The words of the command line, without the program's name.
fn words(rt: &(impl Env + AllocGlobal)) -> io::Result<Vec<String>> {
    let mut words = Vec::new(rt.alloc());
    for word in env::args(rt)?.skip(1) {
        words.push(word)?;
    }
    Ok(words)
}

/// The words of the command line, without the program's name, and the devices of a run.
#[derive(Drop)]
struct Program<S: Source + Drop, K: Sink + Drop, D: Store + Drop, C: Clock + Drop> {
    words: Vec<String>,
    source: S,
    sink: K,
    store: D,
    clock: C,
}

impl<S: Source + Drop, K: Sink + Drop, D: Store + Drop, C: Clock + Drop> KitUser
    for Program<S, K, D, C> {
    type Answer = Status;

    ghost gives = { λ before status after. ProgramRan shipped (words_of (map string_bytes before.words.items)) status (record {
      left = S.left;
      given = S.given;
      read_faults = S.faults;
      held = K.held;
      write_faults = K.faults;
      files = D.files;
      store_faults = D.faults;
      coming = C.coming;
    }) (record { source = before.source; sink = before.sink; store = before.store; clock = before.clock })
        (record { source = after.source; sink = after.sink; store = after.store; clock = after.clock }) };

    fn use_kit(&mut self, alloc: Global, kit: &Kit<Shipped>) -> Status {
        run(
            alloc,
            self.words.as_slice(),
            kit,
            &mut self.source,
            &mut self.sink,
            &mut self.store,
            &mut self.clock,
        )
    }
}

/// Does what the words ask for, with the kit of the shipped rules. Where that kit is out of memory, nothing is done.
fn run_shipped<S: Source + Drop, K: Sink + Drop, D: Store + Drop, C: Clock + Drop>(
    alloc: Global,
    program: &mut Program<S, K, D, C>,
) -> Status
    ensures { ProgramRan shipped (words_of (map string_bytes program.old.words.items)) result (record {
      left = S.left;
      given = S.given;
      read_faults = S.faults;
      held = K.held;
      write_faults = K.faults;
      files = D.files;
      store_faults = D.faults;
      coming = C.coming;
    }) (record { source = program.old.source; sink = program.old.sink; store = program.old.store; clock = program.old.clock })
        (record { source = program.new.source; sink = program.new.sink; store = program.new.store; clock = program.new.clock }) }
{
    match lend_kit(alloc, program) {
        Ok(status) => status,
        Err(_) => Status::NoMemory,
    }
}

fn main(rt: HostRuntime) -> ExitCode {
    let status = match words(&rt) {
        Ok(words) => run_shipped(
            rt.alloc(),
            &mut Program {
                words,
                source: StandardInput::new(rt.reader()),
                sink: StandardOutput::new(io::writer(&rt)),
                store: FolderStore::new(&rt),
                clock: SystemClock::new(&rt),
            },
        ),
        Err(error) if error.kind() == io::ErrorKind::OutOfMemory => Status::NoMemory,
        Err(_) => Status::Usage,
    };
    if let Some(line) = complaint(status) {
        let _ = eprintln!(rt; "{line}");
    }
    ExitCode::from(status.code())
}
