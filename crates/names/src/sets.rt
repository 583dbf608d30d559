// Values as they are written.
ghost use Rattle.std.specs.Prelude.{◌≡◌, IfOk, option_and_then, option_map};
ghost use Rattle.decoration.specs.Sides.{deco_rules};
ghost use Rattle.range_set.specs.Order.{first_fault};
ghost use Rattle.script.specs.Refused.{line_error};
ghost use Rattle.script.specs.Reading.{Gives};
ghost use Rattle.names.specs.Sets.{deco_of, deco_refusal, own_fault, range_of, range_refusal, set_of, side_fault, sound_prefix, unless_refused, value_of};

use decoration::{Deco, DecoError, DecoSet, Kind, MAX_SIDE};
use range_set::{RangeError, RangeSet, Ranged};
use requests::{Written, WrittenDeco};
use script::{DeclarationRefusal, LineError, Refusal};
use std::alloc::{AllocError, Global};
use values::Val;

/// The ranges before the first decoration that is refused by itself, and what that is refused as.
#[derive(Drop)]
struct Prefix {
    ranges: Vec<Ranged<Deco>>,
    fault: Option<DeclarationRefusal>,
}

/// The refusal of the decoration at this place of a list.
fn deco_refusal(index: usize, error: DecoError) -> DeclarationRefusal
    ensures { result ≡ deco_refusal index error }
{
    match error {
        DecoError::Reversed { index: _ } => DeclarationRefusal::Reversed { index },
        DecoError::EmptyMark => DeclarationRefusal::EmptyMark,
        DecoError::NotEmpty => DeclarationRefusal::NotEmpty,
        DecoError::BadReplace => DeclarationRefusal::BadReplace,
        DecoError::NotLineStart { pos } => DeclarationRefusal::NotLineStart { pos },
    }
}

/// A widget's side lies from -10000 to 10000.
fn side_fault(kind: Kind, side: i32) -> Option<DeclarationRefusal>
    ensures { result ≡ side_fault kind side }
{
    match kind {
        Kind::Widget if side < -MAX_SIDE || side > MAX_SIDE => {
            Some(DeclarationRefusal::BadSide { side })
        }
        _ => None,
    }
}

/// What the decoration at this place of a list is refused as by itself.
fn own_fault(index: usize, written: &WrittenDeco) -> Option<DeclarationRefusal>
    ensures { result ≡ own_fault index written.now }
{
    match written.kind.check(written.from, written.to) {
        Err(error) => Some(deco_refusal(index, error)),
        Ok(()) => side_fault(written.kind, written.side),
    }
}

/// The widget that is written. Its side is one that a widget may have, so the only error is out of memory.
fn widget(alloc: Global, written: &WrittenDeco) -> Result<Deco, AllocError>
    ensures { IfOk result (λ deco. deco ≡ deco_of written.now Kind.Widget) }
{
    let text = written.text.try_copy()?;
    match Deco::widget(alloc, text, written.style, written.side) {
        Ok(deco) => Ok(deco),
        Err(_) => Err(AllocError),
    }
}

/// The decoration that is written.
fn deco(alloc: Global, written: &WrittenDeco) -> Result<Deco, AllocError>
    ensures { IfOk result (λ deco. deco ≡ deco_of written.now written.now.kind) }
{
    match written.kind {
        Kind::Mark => Ok(Deco::mark(written.style, written.inclusive)),
        Kind::Widget => widget(alloc, written),
        Kind::Replace => {
            let text = written.text.try_copy()?;
            Deco::replace(alloc, text, written.style, written.inclusive)
        }
        Kind::Line => Ok(Deco::line(written.style)),
    }
}

/// The decoration at its range.
fn range(alloc: Global, written: &WrittenDeco) -> Result<Ranged<Deco>, AllocError>
    ensures { IfOk result (λ range. range ≡ range_of written.now) }
{
    let value = deco(alloc, written)?;
    Ok(Ranged {
        from: written.from,
        to: written.to,
        value,
    })
}

/// The ranges before the first decoration that is refused by itself, and what that is refused as.
fn sound_prefix(alloc: Global, written: &[WrittenDeco]) -> Result<Prefix, AllocError>
    ensures { IfOk result (λ p. (p.ranges.items, p.fault) ≡ sound_prefix 0 written.now) }
{
    let mut ranges = Vec::with_capacity(alloc, written.len())?;
    for next in written {
        if let Some(fault) = own_fault(ranges.len(), next) {
            return Ok(Prefix {
                ranges,
                fault: Some(fault),
            });
        }
        ranges.push(range(alloc, next)?)?;
    }
    Ok(Prefix {
        ranges,
        fault: None,
    })
}

/// Why a list of ranges, of which each ends no earlier than it starts, makes no set.
fn range_error(error: RangeError) -> LineError
    ensures { result ≡ line_error (option_map Refusal.Declaration (range_refusal error)) }
{
    match error {
        RangeError::NoMemory => LineError::NoMemory,
        RangeError::Reversed { index } => {
            LineError::Refused(Refusal::Declaration(DeclarationRefusal::Reversed { index }))
        }
        RangeError::NotSorted { index } => {
            LineError::Refused(Refusal::Declaration(DeclarationRefusal::NotSorted { index }))
        }
    }
}

/// The set of some ranges, unless something is refused that comes after them.
fn set_of_ranges(
    ranges: Vec<Ranged<Deco>>,
    fault: Option<DeclarationRefusal>,
) -> Result<DecoSet, LineError>
    ensures { Gives (λ x. x) result (unless_refused ranges.items (option_and_then range_refusal (first_fault deco_rules ranges.items)) fault) }
{
    match RangeSet::of(ranges) {
        Err(error) => Err(range_error(error)),
        Ok(set) => match fault {
            Some(fault) => Err(LineError::Refused(Refusal::Declaration(fault))),
            None => Ok(set),
        },
    }
}

/// The set of the decorations that are written. `Err`: that of the first one that is refused by itself, or belongs before the
/// one before it; or out of memory.
fn set(alloc: Global, written: &[WrittenDeco]) -> Result<DecoSet, LineError>
    ensures { Gives (λ x. x) result (set_of written.now) }
{
    let Prefix { ranges, fault } = sound_prefix(alloc, written)?;
    set_of_ranges(ranges, fault)
}

/// The value that is written. `Err`: that of its first decoration that is refused; or out of memory.
pub(crate) fn value(alloc: Global, written: &Written) -> Result<Val, LineError>
    ensures { Gives (λ x. x) result (value_of written.now) }
{
    match written {
        Written::Plain(plain) => Ok(Val::Plain(plain.try_copy(alloc)?)),
        Written::Ranges(decos) => Ok(Val::Ranges(set(alloc, decos.as_slice())?)),
    }
}
