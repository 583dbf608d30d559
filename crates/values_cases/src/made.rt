use cm_plain::{Plain, Str};
use decoration::{Deco, DecoSet, Inclusive, Layers, Style, place};
use history::History;
use range_set::{RangeSet, Ranged};
use std::alloc::{AllocError, Global};
use std::test::Fail;
use values::Val;

/// A value as the cases write it.
#[derive(Clone, Copy)]
pub(crate) enum Made<'a> {
    Unit,
    Bool(bool),
    Int(i64),
    Text(&'a str),
    Ints(&'a [i64]),
    Pairs(&'a [(i64, i64)]),
    /// Marks of these ranges.
    Ranges(&'a [(u32, u32)]),
    /// A set of these decorations.
    Set(&'a [Drawn]),
    /// A layer of a mark of each range.
    Layers(&'a [(u32, u32)]),
    History,
}

/// A decoration as the cases write it.
#[derive(Clone, Copy)]
pub(crate) enum Drawn {
    /// A mark of a range, without a style.
    Mark(u32, u32),
    /// A mark of a range that shows reversed.
    Reversed(u32, u32),
    /// A line decoration in bold.
    Bold(u32),
}

/// Values as the cases write them.
#[derive(Clone, Copy)]
pub(crate) struct Of<'a>(pub(crate) &'a [Made<'a>]);

fn ints(alloc: Global, numbers: &[i64]) -> Result<Plain, Fail> {
    let mut items = Vec::new(alloc);
    for number in numbers {
        items.push(Plain::Int(*number))?;
    }
    Ok(Plain::list(items)?)
}

fn pairs(alloc: Global, pairs: &[(i64, i64)]) -> Result<Plain, Fail> {
    let mut items = Vec::new(alloc);
    for pair in pairs {
        items.push(ints(alloc, &[pair.0, pair.1])?)?;
    }
    Ok(Plain::list(items)?)
}

fn marks(alloc: Global, places: &[(u32, u32)]) -> Result<DecoSet, Fail> {
    let mut ranges = Vec::new(alloc);
    let inclusive = Inclusive {
        start: false,
        end: false,
    };
    for (from, to) in places {
        ranges.push(place(Deco::mark(Style::plain(), inclusive), *from, *to)?)?;
    }
    Ok(RangeSet::of(ranges)?)
}

/// A mark of a range, which doesn't grow at its ends.
fn marked(style: Style, from: u32, to: u32) -> Ranged<Deco> {
    let inclusive = Inclusive {
        start: false,
        end: false,
    };
    Ranged {
        from,
        to,
        value: Deco::mark(style, inclusive),
    }
}

fn ranged(deco: Drawn) -> Ranged<Deco> {
    let mut style = Style::plain();
    match deco {
        Drawn::Mark(from, to) => marked(style, from, to),
        Drawn::Reversed(from, to) => {
            style.reverse = true;
            marked(style, from, to)
        }
        Drawn::Bold(place) => {
            style.bold = true;
            Ranged {
                from: place,
                to: place,
                value: Deco::line(style),
            }
        }
    }
}

fn set(alloc: Global, decos: &[Drawn]) -> Result<DecoSet, Fail> {
    let mut ranges = Vec::new(alloc);
    for deco in decos {
        ranges.push(ranged(*deco))?;
    }
    Ok(RangeSet::of(ranges)?)
}

fn layers(alloc: Global, places: &[(u32, u32)]) -> Result<Layers, Fail> {
    let mut sets = Vec::new(alloc);
    for range in places {
        sets.push(marks(alloc, &[*range])?)?;
    }
    Ok(Layers::of(sets))
}

/// The plain value that a case writes; Unit where it writes none.
pub(crate) fn plain_of(alloc: Global, value: Made<'_>) -> Result<Plain, Fail> {
    match value {
        Made::Bool(truth) => Ok(Plain::Bool(truth)),
        Made::Int(number) => Ok(Plain::Int(number)),
        Made::Text(text) => Ok(Plain::Text(Str::of_text(alloc, text)?)),
        Made::Ints(numbers) => ints(alloc, numbers),
        Made::Pairs(numbers) => pairs(alloc, numbers),
        _ => Ok(Plain::Unit),
    }
}

pub(crate) fn value_of(alloc: Global, value: Made<'_>) -> Result<Val, Fail> {
    match value {
        Made::Ranges(places) => Ok(Val::Ranges(marks(alloc, places)?)),
        Made::Set(decos) => Ok(Val::Ranges(set(alloc, decos)?)),
        Made::Layers(places) => Ok(Val::Layers(layers(alloc, places)?)),
        Made::History => Ok(Val::History(History::empty(alloc)?)),
        plain => Ok(Val::Plain(plain_of(alloc, plain)?)),
    }
}

pub(crate) fn all_made(alloc: Global, values: Of<'_>) -> Result<Vec<Val>, Fail> {
    let mut all = Vec::new(alloc);
    for value in values.0 {
        all.push(value_of(alloc, *value)?)?;
    }
    Ok(all)
}

/// Whether a value is the one that a case writes.
pub(crate) fn is(alloc: Global, value: &Val, want: Made<'_>) -> Result<bool, Fail> {
    Ok(value_of(alloc, want)?.same(value))
}

/// Whether values are those that a case writes.
pub(crate) fn are(alloc: Global, values: &[Val], want: Of<'_>) -> Result<bool, Fail> {
    if values.len() != want.0.len() {
        return Ok(false);
    }
    for (value, want) in values.iter().zip(want.0) {
        if !is(alloc, value, *want)? {
            return Ok(false);
        }
    }
    Ok(true)
}
