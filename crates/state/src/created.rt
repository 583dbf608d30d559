// The first state.
ghost use Rattle.std.specs.Prelude.{◌≡◌, ◌≢◌, ◌≤◌, ◌+◌, [], Err, None, Ok, Some, IfErr, IfOk};
ghost use Rattle.values.specs.Whole.{IsWhole};
ghost use Rattle.facet_slots.specs.Found.{scene_of};
ghost use Rattle.facet_slots.specs.Scenes.{IsScene};
ghost use Rattle.facet_slots.specs.Slotted.{plain};
ghost use Rattle.state.specs.Creating.{created_state, creation_calls};
ghost use Rattle.filters.specs.Shown.{allowed};
ghost use Rattle.state.specs.Plainly.{config_from, unordered_config};
ghost use Rattle.state.specs.Reconfigured.{setup_in, IsConfigOf};
ghost use Rattle.state.specs.Refusals.{scene_refusal};
ghost use Rattle.state.specs.PrivateStepping.{IsEntered};

use crate::cutting::{config_allows_several, cut};
use crate::extensions::Extensions;
use crate::reconfigured::{resolved, shared_config};
use crate::state_error::StateError;
use configuration::Config;
use ext_tree::ExtId;
use facet_slots::{Slots, shared_defs};
use line_tree::MAX_LEN;
use registry::Registry;
use selection::first_outside;
use std::alloc::{AllocError, Global};
use std::sync::ledger::Ledger;
use steps::Steps;
use values::{Kit, Meanings, Scene};

/// What refuses a document with its selection.
fn scene_refusal(scene: &Scene) -> Option<StateError>
    ensures refusal { result ≡ scene_refusal (scene_of scene.now) }
    ensures is_scene { result ≡ None → IsScene (scene_of scene.now) }
{
    scene.selection.known();
    let len = scene.document.len();
    if len > MAX_LEN {
        return Some(StateError::TooLong {
            len: u64::from(len),
            max: MAX_LEN,
        });
    }
    match first_outside(scene.selection.ranges(), len) {
        Some(pos) => Some(StateError::SelectionOutside { pos, len }),
        None => None,
    }
}

/// The document with its selection, or what refuses them.
pub fn accepted(scene: Scene) -> Result<Scene, StateError>
    ensures same { IfOk result (λ same. same ≡ scene) }
    ensures is_scene { IfOk result (λ same. IsScene (scene_of same)) }
    ensures accepted { IfOk result (λ _. scene_refusal (scene_of scene) ≡ None) }
    ensures refused { IfErr result (λ error. scene_refusal (scene_of scene) ≡ Some error) }
{
    match scene_refusal(&scene) {
        Some(error) => Err(error),
        None => Ok(scene),
    }
}

/// The configuration that a base comes to over what is declared, or why it comes to none.
pub fn resolved_base<M: Meanings>(
    alloc: Global,
    registry: &Registry<M>,
    base: &[ExtId],
) -> Result<Config, StateError>
    ensures config { IfOk result (λ config. IsConfigOf registry.now (record { base = base.now; contents = [] }) config) }
    ensures found { IfOk result (λ config. config_from registry.now (record { base = base.now; contents = [] }) ≡ Ok (unordered_config config)) }
    ensures refused { IfErr result (λ error. error ≢ StateError.NoMemory → config_from registry.now (record { base = base.now; contents = [] }) ≡ Err error) }
{
    let extensions = Extensions::base(alloc, base)?;
    resolved(alloc, registry, &extensions)
}

/// The document with its selection, which is cut to its main range unless several are allowed.
fn cut_scene(scene: Scene, several: bool) -> Result<Scene, AllocError>
    requires { IsScene (scene_of scene) }
    ensures is_scene { IfOk result (λ start. IsScene (scene_of start)) }
    ensures cut { IfOk result (λ start. scene_of start ≡ record { document = scene.document.characters; selection = allowed several scene.selection }) }
{
    let selection = cut(scene.selection, several)?;
    selection.known();
    Ok(Scene {
        document: scene.document,
        selection,
    })
}

/// The slots of a first configuration over a document with its selection, which is cut first. `Err`: out of memory.
pub fn created<M: Meanings, L: Ledger>(
    alloc: Global,
    kit: &Kit<M>,
    registry: &Registry<M>,
    config: Config,
    scene: Scene,
    calls: &mut Steps<L>,
) -> Result<Slots<M>, AllocError>
    requires whole { IsWhole M.rules kit.now }
    requires config { IsEntered registry.now (Some config) }
    requires is_scene { IsScene (scene_of scene) }
    ensures state { IfOk result (λ s. plain s ≡ created_state M.rules (setup_in registry.now config) (scene_of scene)) }
    ensures cost { calls.new ≤ calls.old + creation_calls M.rules (setup_in registry.now config) (scene_of scene) }
{
    registry.known();
    let several = config_allows_several(registry.defs(), &config);
    let start = cut_scene(scene, several)?;
    let defs = shared_defs(alloc, registry.defs())?;
    let config = shared_config(alloc, config)?;
    Slots::fresh(alloc, kit, defs, config, start, calls)
}
