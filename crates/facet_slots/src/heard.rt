// A transaction as a field is shown it.
ghost use Rattle.std.specs.Prelude.{◌≡◌, IfOk, eqb, filter};
ghost use Rattle.std.specs.List.{list_any};
ghost use Rattle.values.specs.declared.shown_effect.ShownEffect.{ShownEffect as Effect};
ghost use Rattle.facet_slots.specs.Found.{scene_of};
ghost use Rattle.facet_slots.specs.Stepping.{heard as heard_of};

use line_tree::Text;
use listed::Listed;
use selection::Selection;
use std::alloc::{AllocError, Global};
use values::{Scene, ShownEffect, TrView};

/// Whether a kind of effect is among these.
fn is_listened(listens: &[u32], id: u32) -> bool
    ensures { result ≡ list_any (eqb id) listens.now }
{
    for kind in listens {
        if id == *kind {
            return true;
        }
    }
    false
}

/// The effects of these kinds, in order.
fn effects_heard(
    alloc: Global,
    effects: &[ShownEffect],
    listens: &[u32],
) -> Result<Listed<ShownEffect>, AllocError>
    ensures { IfOk result (λ heard. heard ≡ filter (λ (e : Effect). list_any (eqb e.id) listens.now) effects.now) }
{
    let mut heard = Listed::empty(alloc);
    for effect in effects {
        if is_listened(listens, effect.id) {
            heard.push(ShownEffect {
                id: effect.id,
                value: effect.value.try_copy(alloc)?,
            })?;
        }
    }
    Ok(heard)
}

/// A document with its selection once more. The text is shared. `Err`: out of memory.
fn scene_again(document: &Text, selection: &Selection) -> Result<Scene, AllocError>
    ensures document { IfOk result (λ scene. scene.document.characters ≡ document.now.characters) }
    ensures selection { IfOk result (λ scene. scene.selection ≡ selection.now) }
{
    Ok(Scene {
        document: document.try_copy()?,
        selection: selection.try_copy()?,
    })
}

/// A document with its selection once more. The text is shared. `Err`: out of memory.
pub fn scene_copy(scene: &Scene) -> Result<Scene, AllocError>
    ensures { IfOk result (λ copy. scene_of copy ≡ scene_of scene.now) }
{
    scene_again(&scene.document, &scene.selection)
}

/// The new document of a transaction with its new selection. The text is shared. `Err`: out of memory.
pub fn end_scene(transaction: &TrView) -> Result<Scene, AllocError>
    ensures { IfOk result (λ scene. scene_of scene ≡ record { document = transaction.now.document; selection = transaction.now.selection }) }
{
    scene_again(transaction.document(), transaction.selection())
}

/// A transaction as a field that listens to these kinds of effects is shown it: of the effects those, in order. All else is
/// shared. `Err`: out of memory.
pub fn heard(alloc: Global, transaction: &TrView, listens: &[u32]) -> Result<TrView, AllocError>
    ensures { IfOk result (λ view. view ≡ heard_of listens.now transaction.now) }
{
    transaction.known();
    let effects = effects_heard(alloc, transaction.effects(), listens)?;
    transaction.with_effects(effects)
}
