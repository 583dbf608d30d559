ghost use Rattle.values.specs.InRange.{IsShownInRange};

use crate::val::Val;

/// An effect as a rule is shown it: the id of its kind, and its value.
#[derive(Drop)]
pub struct ShownEffect {
    pub id: u32,
    pub value: Val,
}

impl ShownEffect {
    /// What may be relied on in it: its numbers lie in the ranges of their types. It reads them all.
    pub fn known(&self)
        ensures { IsShownInRange self.now }
    {
        let _id = self.id;
        self.value.known();
    }
}
