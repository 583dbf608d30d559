// What is kept on entering a first configuration.
ghost use Rattle.std.specs.Prelude.{◌≡◌, ◌+◌, ◌≤◌, IfOk, []};
ghost use Rattle.values.specs.Whole.{IsWhole};
ghost use Rattle.facet_slots.specs.Scenes.{IsScene};
ghost use Rattle.facet_slots.specs.Stepping.{creation, empty_state, no_setup, Enter};
ghost use Rattle.facet_slots.specs.Resolving.{IsResolved};
ghost use Rattle.facet_slots.specs.Lawful.{IsLawful};
ghost use Rattle.facet_slots.specs.Keeping.{IsKept};
ghost use Rattle.facet_slots.specs.Due.{transition_calls};
ghost use Rattle.facet_slots.specs.Found.{scene_of};
ghost use Rattle.facet_slots.specs.Lent.{defs_of, scene_in, setup_of, values_in};

use crate::heard::scene_copy;
use crate::kept::Kept;
use crate::setup::Setup;
use crate::shelf::Shelf;
use crate::transition::Transition;
use crate::walk::kept_after;
use configuration::Defs;
use ext_tree::Links;
use listed::Listed;
use std::alloc::{AllocError, Global};
use std::sync::ledger::Ledger;
use steps::Steps;
use values::{Kit, Meanings, Scene, Val};

/// Definitions of nothing.
fn nothing_declared(alloc: Global) -> Defs<Val>
    ensures { defs_of result ≡ no_setup.defs }
{
    Defs {
        facets: Listed::empty(alloc),
        fields: Listed::empty(alloc),
        node_defs: Listed::empty(alloc),
        links: Links::empty(alloc),
    }
}

/// What is kept of the state of nothing.
fn nothing_kept(alloc: Global, scene: Scene) -> Result<Kept, AllocError>
    ensures scene { IfOk result (λ kept. scene_in kept ≡ scene_of scene) }
    ensures facets { IfOk result (λ kept. kept.shelf.facets ≡ []) }
    ensures fields { IfOk result (λ kept. kept.shelf.fields ≡ []) }
    ensures inputs { IfOk result (λ kept. kept.shelf.inputs ≡ []) }
{
    let shelf = Shelf::none(alloc)?;
    Ok(Kept { scene, shelf })
}

/// The configuration of nothing.
fn nothing<'a>(defs: &'a Defs<Val>) -> Setup<'a>
    ensures { setup_of result ≡ record { defs = defs_of defs.entry.now; config = no_setup.config } }
{
    Setup { defs, config: None }
}

/// What is kept of the state that a first configuration makes. `Err`: out of memory.
pub fn first_kept<M: Meanings, L: Ledger>(
    alloc: Global,
    kit: &Kit<M>,
    setup: &Setup,
    scene: Scene,
    calls: &mut Steps<L>,
) -> Result<Box<Kept>, AllocError>
    requires whole { IsWhole M.rules kit.now }
    requires resolved { IsResolved (setup_of setup.now) }
    requires lawful { IsLawful M.rules (setup_of setup.now) }
    requires is_scene { IsScene (scene_of scene) }
    ensures scene { IfOk result (λ kept. scene_in kept.value ≡ scene_of scene) }
    ensures values { IfOk result (λ kept. values_in kept.value ≡ (creation M.rules (setup_of setup.now) (scene_of scene)).values) }
    ensures kept { IfOk result (λ kept. IsKept M.rules (setup_of setup.now) (scene_in kept.value) kept.value.shelf.facets kept.value.shelf.fields kept.value.shelf.inputs) }
    ensures cost { calls.new ≤ calls.old + transition_calls M.rules Enter (empty_state (scene_of scene)) (setup_of setup.now) }
{
    let copy = scene_copy(&scene)?;
    let none = nothing_declared(alloc);
    let old = nothing_kept(alloc, copy)?;
    let kept = kept_after(
        alloc,
        kit,
        &Transition::Enter,
        &nothing(&none),
        &old,
        setup,
        scene,
        calls,
    )?;
    Ok(kept)
}
