ghost use Rattle.std.specs.Prelude.{IfOk, Some, None, [], ◌≡◌, ◌∷◌, ◌≤◌};
ghost use Rattle.change_desc.specs.Sections.{new_size, spelled};
ghost use Rattle.transaction.specs.Merging.{IsDraft};

use change_desc::Desc;
use change_set::{Change, InsertedText};
use cm_plain::{KeptMap, Plain};
use kept_effects::mapped_value;
use line_tree::{Text, cut_len};
use listed::Listed;
use selection::Range;
use std::alloc::{AllocError, Global};
use transaction::{
    Draft, Effect, EffectKinds, EffectMaps, Frame, SelectionSpec, Spec, TransactionError, resolve,
};

/// The two maps of plain values.
#[derive(Drop)]
pub(crate) struct PlainMaps {
    pub(crate) alloc: Global,
}

impl EffectMaps<Plain> for PlainMaps {
    ghost use Rattle.cm_plain.specs.KeptMaps.{kept_map_of};
    ghost use Rattle.kept_effects.specs.MappedValues.{mapped_value};

    ghost map_count = { λ maps. 2 };

    ghost map_value = { λ maps number value changes. mapped_value (kept_map_of number) value changes };

    fn map(&self, number: u32, value: Plain, changes: &Desc) -> Result<Option<Plain>, AllocError> {
        mapped_value(self.alloc, KeptMap::of_number(number), &value, changes)
    }
}

/// Three kinds: without a map, of a position, and of a range; and one compartment.
pub(crate) fn kinds(alloc: Global) -> Result<EffectKinds, AllocError>
    ensures { IfOk result (λ kinds. kinds.maps ≡ None ∷ Some 1 ∷ Some 2 ∷ []) }
{
    let mut maps = Listed::empty(alloc);
    maps.push(None)?;
    maps.push(Some(1))?;
    maps.push(Some(2))?;
    Ok(EffectKinds {
        maps,
        compartments: 1,
    })
}

/// A text of some characters, which are few.
fn text(alloc: Global, characters: &[char]) -> Result<Text, AllocError> {
    if cut_len(characters) > 100 {
        return Text::empty(alloc);
    }
    Text::of(alloc, characters)
}

/// The change of a range.
pub(crate) fn change(
    alloc: Global,
    from: u32,
    to: u32,
    inserted: &[char],
) -> Result<Listed<Change>, AllocError> {
    let insert = text(alloc, inserted)?;
    let mut changes = Listed::empty(alloc);
    changes.push(Change::Span {
        from,
        to,
        insert: InsertedText::of(insert),
    })?;
    Ok(changes)
}

/// A spec of a change.
pub(crate) fn changing(
    alloc: Global,
    from: u32,
    to: u32,
    inserted: &[char],
) -> Result<Spec<Plain>, AllocError> {
    let changes = change(alloc, from, to, inserted)?;
    Ok(Spec {
        changes,
        selection: None,
        effects: Listed::empty(alloc),
        annotations: Listed::empty(alloc),
        user_event: None,
        sequential: false,
        filter: true,
    })
}

/// A selection of one place.
pub(crate) fn place(alloc: Global, at: u32) -> Result<SelectionSpec, AllocError> {
    let mut ranges = Listed::empty(alloc);
    ranges.push(Range {
        anchor: at,
        head: at,
    })?;
    Ok(SelectionSpec { ranges, main: 0 })
}

/// Specs of a document of four characters, merged.
pub(crate) fn merged(
    alloc: Global,
    specs: Vec<Spec<Plain>>,
) -> Result<Box<Draft<Plain>>, TransactionError>
    ensures draft { IfOk result (λ draft. IsDraft 4 draft.value) }
    ensures short { IfOk result (λ draft. new_size spelled draft.value.changes ≤ 100) }
{
    let kinds = kinds(alloc)?;
    let maps = PlainMaps { alloc };
    let frame = Frame {
        len: 4,
        max: 100,
        kinds: &kinds,
        maps: &maps,
    };
    resolve(alloc, specs, &frame)
}

fn one(alloc: Global, spec: Spec<Plain>) -> Result<Vec<Spec<Plain>>, AllocError> {
    let specs = vec![in alloc; spec]?;
    Ok(specs)
}

fn two(
    alloc: Global,
    first: Spec<Plain>,
    second: Spec<Plain>,
) -> Result<Vec<Spec<Plain>>, AllocError> {
    let specs = vec![in alloc; first, second]?;
    Ok(specs)
}

/// One spec, merged with none.
pub(crate) fn alone(alloc: Global, spec: Spec<Plain>) -> Result<Box<Draft<Plain>>, TransactionError>
    ensures draft { IfOk result (λ draft. IsDraft 4 draft.value) }
    ensures short { IfOk result (λ draft. new_size spelled draft.value.changes ≤ 100) }
{
    merged(alloc, one(alloc, spec)?)
}

/// Two specs, merged.
pub(crate) fn together(
    alloc: Global,
    first: Spec<Plain>,
    second: Spec<Plain>,
) -> Result<Box<Draft<Plain>>, TransactionError> {
    merged(alloc, two(alloc, first, second)?)
}

/// An effect in numbers: a number or a list of two as the value of a kind, where the second number of the former is -1; a
/// compartment and its node after 100, an unknown one after 101; a node after 200.
pub(crate) type Coded = (u32, i64, i64);

/// A list of two numbers.
fn list(alloc: Global, from: i64, to: i64) -> Result<Plain, AllocError> {
    let mut items = Vec::new(alloc);
    items.push(Plain::Int(from))?;
    items.push(Plain::Int(to))?;
    Ok(Plain::list(items).ok().unwrap_or(Plain::Unit))
}

/// The effect of a code.
pub(crate) fn effect(alloc: Global, code: Coded) -> Result<Effect<Plain>, AllocError> {
    match code {
        (100, to, _) => Ok(Effect::Reconfigure {
            compartment: 0,
            to: if to == 7 { 7 } else { 0 },
        }),
        (101, _, _) => Ok(Effect::Reconfigure {
            compartment: 1,
            to: 0,
        }),
        (200, _, _) => Ok(Effect::Append(9)),
        (id, number, -1) => Ok(Effect::Kind {
            id,
            value: Plain::Int(number),
        }),
        (id, from, to) => Ok(Effect::Kind {
            id,
            value: list(alloc, from, to)?,
        }),
    }
}

/// The code of a value.
pub(crate) fn code(id: u32, value: &Plain) -> Coded {
    match value {
        Plain::Int(number) => (id, *number, -1),
        Plain::List(list) => match list.as_slice() {
            [Plain::Int(from), Plain::Int(to)] => (id, *from, *to),
            _ => (id, -2, -2),
        },
        _ => (id, -3, -3),
    }
}

/// Whether an effect has this code.
pub(crate) fn is_effect(effect: &Effect<Plain>, want: Coded) -> bool {
    match effect {
        Effect::Kind { id, value } => code(*id, value) == want,
        Effect::Reconfigure { compartment, to } => {
            want == (100, i64::from(*to), -1) && *compartment == 0
        }
        Effect::Append(node) => want == (200, i64::from(*node), -1),
        Effect::Root(_) => false,
    }
}

/// Whether effects have these codes, in order.
pub(crate) fn are_effects(effects: &[Effect<Plain>], want: &[Coded]) -> bool {
    if effects.len() != want.len() {
        return false;
    }
    for (effect, code) in effects.iter().zip(want) {
        if !is_effect(effect, *code) {
            return false;
        }
    }
    true
}
