ghost use Rattle.std.specs.Prelude.{option_copied, ◌≡◌};
ghost use Rattle.transaction.specs.Annotations.{annotation_of, is_kind, is_user_event};

use crate::annotation::{Annotation, USER_EVENT};
use crate::draft::Draft;
use cm_plain::{Plain, Str};

impl Annotation {
    /// Whether it is of this kind.
    fn is_kind(&self, kind: &[char]) -> bool
        ensures { result ≡ is_kind kind.now self.now }
    {
        self.kind.chars() == kind
    }
}

/// The value of the first annotation of a kind.
fn annotation_of<'a>(annotations: &'a [Annotation], kind: &[char]) -> Option<&'a Plain>
    ensures { option_copied result ≡ annotation_of kind.now annotations.now }
{
    match annotations
        .iter()
        .find(|annotation| annotation.is_kind(kind))
    {
        Some(annotation) => Some(&annotation.value),
        None => None,
    }
}

impl<V> Draft<V> {
    /// The value of its first annotation of a kind, if it has one (Reference Manual, Transaction.annotation).
    pub fn annotation(&self, kind: &Str) -> Option<&Plain>
        ensures { option_copied result ≡ annotation_of kind.now self.now.annotations }
    {
        annotation_of(self.annotations.as_slice(), kind.chars())
    }

    /// Whether its user event is this one or below it (Reference Manual, Transaction.isUserEvent).
    pub fn is_user_event(&self, event: &Str) -> bool
        ensures { result ≡ is_user_event event.now self.now.annotations }
    {
        match annotation_of(self.annotations.as_slice(), &USER_EVENT) {
            Some(Plain::Text(given)) => given.is_below(event.chars()),
            _ => false,
        }
    }
}
