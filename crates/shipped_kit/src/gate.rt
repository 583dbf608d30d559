// What stands before rules.
use std::alloc::{AllocError, Global};
use std::cell::Cell;
use std::rc::Rc;
use values::Sort;

/// Which combiners, computers, creators and updaters answer.
#[derive(Clone, Copy)]
pub enum Answering {
    All,
    /// Updaters alone.
    Updaters,
    /// Updaters, and the computer of this number.
    UpdatersAndComputer(u32),
}

/// What stands before the rules whose calls contracts count, which are combiners, computers, creators and updaters: it counts
/// their calls, and refuses those that it is told to refuse. A refused call is out of memory.
#[derive(Drop)]
pub struct Gate {
    calls: Cell<u32>,
    answering: Cell<Answering>,
}

impl Gate {
    /// No call yet, and all rules answer. `Err`: out of memory.
    pub fn new(alloc: Global) -> Result<Rc<Gate>, AllocError> {
        let gate = Gate {
            calls: Cell::new(0),
            answering: Cell::new(Answering::All),
        };
        match Rc::new(alloc, gate) {
            Ok(gate) => Ok(gate),
            Err(_) => Err(AllocError),
        }
    }

    /// Forgets the calls, and lets these rules answer.
    pub fn start(&self, answering: Answering) {
        self.calls.set(0);
        self.answering.set(answering);
    }

    /// The calls since the start, modulo 2^32.
    pub fn calls(&self) -> u32 {
        self.calls.get()
    }

    /// Whether a rule answers.
    fn answers(&self, sort: Sort, number: u32) -> bool {
        match self.answering.get() {
            Answering::All => true,
            Answering::Updaters => sort == Sort::Update,
            Answering::UpdatersAndComputer(computer) => {
                sort == Sort::Update || sort == Sort::Compute && number == computer
            }
        }
    }

    /// Counts a call of a rule. `Err`: it is refused.
    fn pass(&self, sort: Sort, number: u32) -> Result<(), AllocError> {
        self.calls.set(self.calls.get().wrapping_add(1));
        if self.answers(sort, number) {
            Ok(())
        } else {
            Err(AllocError)
        }
    }
}

/// What stands before the rules of a kit.
#[derive(Drop)]
pub(crate) enum Before {
    Nothing,
    Gate(Rc<Gate>),
}

impl Before {
    /// The same for one more rule. `Err`: out of memory.
    pub(crate) fn same(&self) -> Result<Before, AllocError> {
        match self {
            Before::Nothing => Ok(Before::Nothing),
            Before::Gate(gate) => Ok(Before::Gate(gate.clone()?)),
        }
    }

    /// Tells of a call of a rule. `Err`: it is refused.
    pub(crate) fn pass(&self, sort: Sort, number: u32) -> Result<(), AllocError> {
        match self {
            Before::Nothing => Ok(()),
            Before::Gate(gate) => gate.pass(sort, number),
        }
    }
}
