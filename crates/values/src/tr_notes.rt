ghost use Rattle.std.specs.List.{AllByRecursion};
ghost use Rattle.values.specs.InRange.{IsKeptInRange, IsNoteInRange, IsShownInRange};

use crate::known::known_plain;
use crate::shown_effect::ShownEffect;
use cm_plain::KeptEffect;
use listed::Listed;
use transaction::Annotation;

/// What a transaction carries beside its changes and selection.
#[derive(Drop)]
pub struct TrNotes {
    /// The effects that the rule listens to, in order.
    pub effects: Listed<ShownEffect>,
    /// What undoes the transaction's effects, in the start document (Reference Manual, invertedEffects).
    pub inverted: Listed<KeptEffect>,
    /// All of its annotations, in order.
    pub annotations: Listed<Annotation>,
}

impl TrNotes {
    /// What may be relied on in it: its numbers lie in the ranges of their types. It reads them all.
    #[inline(always)]
    pub fn known(&self)
        ensures effects { AllByRecursion IsShownInRange self.now.effects }
        ensures inverted { AllByRecursion IsKeptInRange self.now.inverted }
        ensures annotations { AllByRecursion IsNoteInRange self.now.annotations }
    {
        known_effects(self.effects.as_slice());
        known_kept(self.inverted.as_slice());
        known_annotations(self.annotations.as_slice());
    }
}

/// Reads each number of effects.
fn known_effects(effects: &[ShownEffect])
    ensures { AllByRecursion IsShownInRange effects.now }
{
    for effect in effects {
        effect.known();
    }
}

/// Reads each number of kept effects.
fn known_kept(effects: &[KeptEffect])
    ensures { AllByRecursion IsKeptInRange effects.now }
{
    for effect in effects {
        let _id = effect.id;
        known_plain(&effect.value);
    }
}

/// Reads each number of annotations.
fn known_annotations(annotations: &[Annotation])
    ensures { AllByRecursion IsNoteInRange annotations.now }
{
    for annotation in annotations {
        known_plain(&annotation.value);
    }
}
