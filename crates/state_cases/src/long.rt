// A creation over a document that is too long.
ghost use Rattle.std.specs.Prelude.{◌≡◌, ◌<◌};
ghost use Rattle.values.specs.Shipped.{shipped};
ghost use Rattle.values.specs.Whole.{IsWhole};

use crate::specs::text;
use line_tree::{MAX_LEN, Text};
use registry::Registry;
use selection::Selection;
use shipped_rules::Shipped;
use state::{State, StateError};
use std::alloc::{AllocError, Global};
use std::marker::Brand;
use std::sync::ledger::{Blank, Ledger};
use steps::Steps;
use values::Kit;

/// A text of 2^25 characters, whose parts are shared.
fn long(alloc: Global) -> Result<Text, AllocError> {
    let mut text = text(alloc, "aaaaaaaaaaaaaaaa")?;
    for _ in 0..21 {
        if text.len() <= MAX_LEN {
            text = text.append(&text)?;
        }
    }
    Ok(text)
}

fn created<L: Ledger>(
    alloc: Global,
    kit: &Kit<Shipped>,
    registry: &Registry<Shipped>,
    document: Text,
    blank: Blank,
) -> Result<State<Shipped>, StateError>
    requires name { blank.name ≡ L.name }
    requires parts { blank.parts ≡ L.parts }
    requires some { 0 < blank.parts }
    requires whole { IsWhole shipped kit.now }
{
    let mut calls: Steps<L> = Steps::new(blank);
    let selection = Selection::single(alloc, 0, 0)?;
    State::create(alloc, kit, registry, document, selection, &[], &mut calls)
}

/// Whether the long text is refused.
pub(crate) fn is_refused(alloc: Global, kit: &Kit<Shipped>, registry: &Registry<Shipped>) -> bool
    requires { IsWhole shipped kit.now }
{
    let Ok(document) = long(alloc) else {
        return false;
    };
    match created::<Brand>(alloc, kit, registry, document, Blank::new(1)) {
        Err(StateError::TooLong { len, max }) => len == 33_554_432 && max == MAX_LEN,
        _ => false,
    }
}
