ghost use Rattle.std.specs.Prelude.{◌≡◌, ◌≤◌, ◌+◌, ◌^◌, ◌<◌, length, IfOk};
ghost use Rattle.line_tree.specs.Text.{cut, max_len};
ghost use Rattle.change_desc.specs.Sections.{old_size, new_size, spelled, counted, lengths, apply, invert};
ghost use Rattle.change_desc.specs.Positions.{map_pos, is_negative};
ghost use Rattle.change_desc.specs.Compose.{compose};
ghost use Rattle.change_desc.specs.Map.{map_over};
ghost use Rattle.change_desc.specs.Filter.{filter_kept};
ghost use Rattle.script.specs.Reading.{Gives};
ghost use Rattle.mapping.specs.Mapping.{second_len, answered_set, answered_text, place_at, mapped_place, both_sets, mapped, answer_of, parts_of};

use crate::changes::set_of;
use change_set::{ChangeSet, InsertedText};
use cm_plain::Str;
use line_tree::Text;
use replies::{Mapped, MappedParts, MappedPlace};
use script::{LineError, MapOp, MapParts, MapPlace, MapRequest, Refusal, cut_text};
use std::alloc::{AllocError, Global};

/// A set and the text that is answered with it.
#[derive(Drop)]
struct SetWithText {
    set: ChangeSet,
    text: Text,
}

/// The length of the text that the second set is over.
fn second_len(op: MapOp, a: &ChangeSet, doc: &Text) -> u32
    ensures { result ≡ second_len op a.now doc.now.characters }
{
    match op {
        MapOp::Compose => a.new_len(),
        MapOp::Of | MapOp::Map | MapOp::MapBefore | MapOp::Invert | MapOp::Filter => doc.len(),
    }
}

/// Both sets, or the first refusal. The only other error is out of memory.
#[tactic(auto, unfolding(crate::specs::Mapping::both_sets))]
fn both_sets(
    alloc: Global,
    request: &MapParts,
    doc: &Text,
) -> Result<(ChangeSet, ChangeSet), LineError>
    requires { doc.now.characters ≡ cut request.now.sets.doc }
    ensures sets { Gives (λ sets. sets) result (both_sets request.now) }
    ensures first { IfOk result (λ sets. old_size sets.0 ≡ length doc.now.characters) }
    ensures second { IfOk result (λ sets. old_size sets.1 ≡ second_len request.now.op sets.0 doc.now.characters) }
    ensures fit { IfOk result (λ sets. (length doc.now.characters ≤ max_len)
        × (new_size spelled sets.0 ≤ max_len) × (new_size spelled sets.1 ≤ max_len)) }
{
    let a = set_of(alloc, request.sets.a.as_slice(), doc.len())?;
    let len = second_len(request.op, &a, doc);
    let b = set_of(alloc, request.sets.b.as_slice(), len)?;
    Ok((a, b))
}

fn first_set(a: &ChangeSet, doc: &Text) -> Result<SetWithText, AllocError>
    requires { old_size a.now ≡ length doc.now.characters }
    ensures set { IfOk result (λ r. r.set ≡ a.now) }
    ensures text { IfOk result (λ r. r.text.characters ≡ apply a.now doc.now.characters) }
{
    let text = a.apply(doc)?;
    let set = a.try_copy()?;
    Ok(SetWithText { set, text })
}

fn composed(a: &ChangeSet, b: &ChangeSet, doc: &Text) -> Result<SetWithText, AllocError>
    requires over { old_size a.now ≡ length doc.now.characters }
    requires meet { new_size spelled a.now ≡ old_size b.now }
    ensures set { IfOk result (λ r. r.set ≡ compose spelled a.now b.now) }
    ensures text { IfOk result (λ r. r.text.characters ≡ apply (compose spelled a.now b.now) doc.now.characters) }
{
    let set = a.compose(b)?;
    let text = set.apply(doc)?;
    Ok(SetWithText { set, text })
}

#[tactic(auto, using(crate::proofs::SetLengths::lengths_old))]
fn mapped_over(
    a: &ChangeSet,
    b: &ChangeSet,
    before: bool,
    doc: &Text,
) -> Result<SetWithText, AllocError>
    requires over { old_size a.now ≡ length doc.now.characters }
    requires meet { old_size b.now ≡ length doc.now.characters }
    requires fits { new_size spelled a.now + new_size spelled b.now < 2 ^ 32 }
    ensures set { IfOk result (λ r. r.set ≡ map_over spelled b.now (lengths spelled a.now) before) }
    ensures text { IfOk result (λ r. r.text.characters ≡
        apply (map_over spelled b.now (lengths spelled a.now) before) (apply a.now doc.now.characters)) }
{
    let over = a.desc()?;
    let set = b.map(&over, before)?;
    let text = set.apply(&a.apply(doc)?)?;
    Ok(SetWithText { set, text })
}

fn inverse(a: &ChangeSet, doc: &Text) -> Result<SetWithText, AllocError>
    requires { old_size a.now ≡ length doc.now.characters }
    ensures set { IfOk result (λ r. r.set ≡ invert a.now doc.now.characters) }
    ensures text { IfOk result (λ r. r.text.characters ≡ doc.now.characters) }
{
    let set = a.invert(doc)?;
    let text = doc.try_copy()?;
    Ok(SetWithText { set, text })
}

#[tactic(auto, using(crate::proofs::Filtering::kept_old, crate::proofs::Filtering::kept_new))]
fn filtered(a: &ChangeSet, protect: &[(u32, u32)], doc: &Text) -> Result<SetWithText, AllocError>
    requires over { old_size a.now ≡ length doc.now.characters }
    requires fits { old_size a.now + new_size spelled a.now < 2 ^ 32 }
    ensures set { IfOk result (λ r. r.set ≡ filter_kept spelled protect.now a.now) }
    ensures text { IfOk result (λ r. r.text.characters ≡ apply (filter_kept spelled protect.now a.now) doc.now.characters) }
{
    let set = a.filter(protect)?.kept;
    let text = set.apply(doc)?;
    Ok(SetWithText { set, text })
}

/// The set that is answered, with its text.
fn answered(
    request: &MapParts,
    a: &ChangeSet,
    b: &ChangeSet,
    doc: &Text,
) -> Result<SetWithText, AllocError>
    requires first { old_size a.now ≡ length doc.now.characters }
    requires second { old_size b.now ≡ second_len request.now.op a.now doc.now.characters }
    requires fit { (length doc.now.characters ≤ max_len) × (new_size spelled a.now ≤ max_len) × (new_size spelled b.now ≤ max_len) }
    ensures set { IfOk result (λ r. r.set ≡ answered_set request.now.op request.now.protect a.now b.now doc.now.characters) }
    ensures text { IfOk result (λ r. r.text.characters ≡ answered_text request.now.op
        (answered_set request.now.op request.now.protect a.now b.now doc.now.characters) a.now doc.now.characters) }
{
    match request.op {
        MapOp::Of => first_set(a, doc),
        MapOp::Compose => composed(a, b, doc),
        MapOp::Map => mapped_over(a, b, false, doc),
        MapOp::MapBefore => mapped_over(a, b, true, doc),
        MapOp::Invert => inverse(a, doc),
        MapOp::Filter => filtered(a, request.protect.as_slice(), doc),
    }
}

fn place_of(set: &ChangeSet, pos: u32, place: &MapPlace) -> Result<MappedPlace, AllocError>
    requires { pos ≤ old_size set.now }
    ensures { IfOk result (λ p. p ≡ place_at (map_pos counted (lengths spelled set.now) pos (is_negative place.now.side) place.now.mode)) }
{
    let desc = set.desc()?;
    match desc.map_pos(pos, place.side, place.mode) {
        Some(at) => Ok(MappedPlace::At(at)),
        None => Ok(MappedPlace::Deleted),
    }
}

/// Where the position that is asked for goes.
#[tactic(auto, unfolding(crate::specs::Mapping::mapped_place))]
fn mapped_place(alloc: Global, place: &MapPlace, set: &ChangeSet) -> Result<MappedPlace, LineError>
    ensures { Gives (λ p. p) result (mapped_place place.now set.now) }
{
    match place.pos {
        None => Ok(MappedPlace::NotAsked),
        Some(pos) if pos <= set.len() => Ok(place_of(set, pos, place)?),
        Some(_) => Err(LineError::Refused(Refusal::BadValue {
            field: Str::of_text(alloc, "pos")?,
        })),
    }
}

/// The set that is answered and its text, or the first refusal. The only other error is out of memory.
#[tactic(auto, unfolding(crate::specs::Mapping::answer_of))]
fn answer_of(alloc: Global, request: &MapParts) -> Result<SetWithText, LineError>
    ensures { Gives (λ answer. (answer.set, answer.text.characters)) result (answer_of request.now) }
{
    let doc = cut_text(alloc, &request.sets.doc)?;
    let (a, b) = both_sets(alloc, request, &doc)?;
    Ok(answered(request, &a, &b, &doc)?)
}

fn with_place(alloc: Global, answer: SetWithText, place: MappedPlace) -> Result<Mapped, AllocError>
    ensures { IfOk result (λ m. m ≡ parts_of answer.set answer.text.characters place) }
{
    let SetWithText { set, text } = answer;
    let text = InsertedText::of(text);
    Mapped::new(alloc, MappedParts { set, text, place })
}

/// What `map` answers: a set of changes made of the request's two lists as its `op` says, the text that it leads to,
/// and where the position that was asked for goes; or the first refusal: of the changes of `a`, of those of `b`, then
/// `BadValue` with field `pos` where the position lies past the text that the answered set is over. The only other
/// error is out of memory. Positions and lengths are in characters. (Reference Manual: ChangeSet, ChangeDesc.mapPos)
#[tactic(auto, unfolding(crate::specs::Mapping::mapped))]
pub fn mapped(alloc: Global, request: &MapRequest) -> Result<Mapped, LineError>
    ensures { Gives (λ m. m) result (mapped request.now) }
{
    let request = request.parts();
    let answer = answer_of(alloc, request)?;
    let place = mapped_place(alloc, &request.place, &answer.set)?;
    Ok(with_place(alloc, answer, place)?)
}
