// Which nodes were walked to their end, at which precedence.
ghost use Rattle.std.specs.Prelude.{◌≡◌, ◌⊎◌, ◌<◌, ◌*◌, length, IfOk, true, false};
ghost use Rattle.ext_tree.specs.declared.visit.Visit.{Visit};
ghost use Rattle.ext_tree.specs.Flat.{precedences};
ghost use Rattle.ext_tree.specs.Memo.{place_of, is_walked};

use crate::precedence::PRECEDENCES;
use crate::visit::Visit;
use std::alloc::{AllocError, Global};

/// A mark for each node at each precedence.
#[derive(Drop)]
pub struct Memo {
    walked: Vec<bool>,
}

fn place_of(visit: Visit) -> usize
    ensures { result ≡ place_of visit }
{
    visit.node as usize * PRECEDENCES + visit.precedence.level()
}

impl Memo {
    /// No marks, for this many nodes.
    pub fn new(alloc: Global, nodes: usize) -> Result<Self, AllocError>
        ensures none { IfOk result (λ memo. (v : Visit) → is_walked memo.walked.items v ≡ false) }
        ensures room { IfOk result (λ memo. length memo.walked.items ≡ nodes * precedences) }
    {
        match nodes.checked_mul(PRECEDENCES) {
            Some(marks) => Ok(Memo {
                walked: vec![in alloc; false; marks]?,
            }),
            None => Err(AllocError),
        }
    }

    /// Whether a node is marked at this precedence.
    pub fn is_walked(&self, visit: Visit) -> bool
        ensures { result ≡ is_walked self.now.walked.items visit }
    {
        self.walked.get(place_of(visit)).copied().unwrap_or(false)
    }

    /// Marks a node at this precedence.
    pub fn mark(&mut self, visit: Visit)
        ensures others { (w : Visit) → is_walked self.new.walked.items w ≡ true → (w ≡ visit) ⊎ (is_walked self.old.walked.items w ≡ true) }
        ensures marked { place_of visit < length self.old.walked.items → is_walked self.new.walked.items visit ≡ true }
        ensures room { length self.new.walked.items ≡ length self.old.walked.items }
    {
        let place = place_of(visit);
        if place < self.walked.len() {
            self.walked[place] = true;
        }
    }
}
