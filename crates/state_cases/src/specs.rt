// Specs as the cases write them.
use change_set::{Change, InsertedText};
use cm_plain::{Plain, Str};
use line_tree::{Text, cut_len};
use listed::Listed;
use selection::Range;
use std::alloc::{AllocError, Global};
use transaction::{Effect, SelectionSpec, Spec};
use values::Val;

/// An effect.
#[derive(Clone, Copy)]
pub(crate) enum On<'a> {
    /// A number for those that listen to a kind.
    Told(u32, i64),
    Reconfigure(u32, u32),
    Root(&'a [u32]),
    Append(u32),
}

/// A spec.
#[derive(Clone, Copy)]
pub(crate) enum Sent<'a> {
    /// Characters from a place to a place replaced by a text.
    Typed(&'a [(u32, u32, &'a str)]),
    /// The same, of which no filter is asked.
    Unfiltered(&'a [(u32, u32, &'a str)]),
    /// Effects.
    Told(&'a [On<'a>]),
    /// Ranges of which the first is the main one, and effects.
    Selected(&'a [(u32, u32)], &'a [On<'a>]),
    /// Characters replaced, and effects.
    Both(&'a [(u32, u32, &'a str)], &'a [On<'a>]),
}

impl<'a> Sent<'a> {
    fn typed(self) -> &'a [(u32, u32, &'a str)] {
        match self {
            Sent::Typed(changes) | Sent::Unfiltered(changes) | Sent::Both(changes, _) => changes,
            _ => &[],
        }
    }

    fn is_filtered(self) -> bool {
        match self {
            Sent::Unfiltered(_) => false,
            _ => true,
        }
    }

    fn effects(self) -> &'a [On<'a>] {
        match self {
            Sent::Told(effects) | Sent::Selected(_, effects) | Sent::Both(_, effects) => effects,
            _ => &[],
        }
    }
}

/// A text; `Err` where it is too long, too.
pub(crate) fn text(alloc: Global, characters: &str) -> Result<Text, AllocError> {
    let characters = Str::of_text(alloc, characters)?;
    if cut_len(characters.chars()) > 1000 {
        return Err(AllocError);
    }
    Text::of(alloc, characters.chars())
}

fn changes(alloc: Global, all: &[(u32, u32, &str)]) -> Result<Listed<Change>, AllocError> {
    let mut changes = Listed::empty(alloc);
    for (from, to, characters) in all {
        let insert = InsertedText::of(text(alloc, characters)?);
        changes.push(Change::Span {
            from: *from,
            to: *to,
            insert,
        })?;
    }
    Ok(changes)
}

fn effect(alloc: Global, on: On<'_>) -> Result<Effect<Val>, AllocError> {
    match on {
        On::Told(id, number) => Ok(Effect::Kind {
            id,
            value: Val::Plain(Plain::Int(number)),
        }),
        On::Reconfigure(compartment, to) => Ok(Effect::Reconfigure { compartment, to }),
        On::Root(nodes) => Ok(Effect::Root(Listed::new(nodes.to_vec(alloc)?))),
        On::Append(node) => Ok(Effect::Append(node)),
    }
}

fn effects(alloc: Global, all: &[On<'_>]) -> Result<Listed<Effect<Val>>, AllocError> {
    let mut effects = Listed::empty(alloc);
    for on in all {
        effects.push(effect(alloc, *on)?)?;
    }
    Ok(effects)
}

pub(crate) fn ranges(alloc: Global, all: &[(u32, u32)]) -> Result<Listed<Range>, AllocError> {
    let mut ranges = Listed::empty(alloc);
    for (anchor, head) in all {
        ranges.push(Range {
            anchor: *anchor,
            head: *head,
        })?;
    }
    Ok(ranges)
}

fn selection(alloc: Global, sent: Sent<'_>) -> Result<Option<SelectionSpec>, AllocError> {
    match sent {
        Sent::Selected(all, _) => Ok(Some(SelectionSpec {
            ranges: ranges(alloc, all)?,
            main: 0,
        })),
        _ => Ok(None),
    }
}

fn spec(alloc: Global, sent: Sent<'_>) -> Result<Spec<Val>, AllocError> {
    let changes = changes(alloc, sent.typed())?;
    let selection = selection(alloc, sent)?;
    Ok(Spec {
        changes,
        selection,
        effects: effects(alloc, sent.effects())?,
        annotations: Listed::empty(alloc),
        user_event: None,
        sequential: false,
        filter: sent.is_filtered(),
    })
}

pub(crate) fn specs(alloc: Global, all: &[Sent<'_>]) -> Result<Vec<Spec<Val>>, AllocError> {
    let mut specs = Vec::new(alloc);
    for sent in all {
        specs.push(spec(alloc, *sent)?)?;
    }
    Ok(specs)
}
