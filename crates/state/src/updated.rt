// The values after an update.
ghost use Rattle.std.specs.Prelude.{◌≡◌, ◌≢◌, Err, IfErr, IfOk, Ok, option_map};
ghost use Rattle.std.specs.Rc.{rc_value};
ghost use Rattle.values.specs.Whole.{IsWhole};
ghost use Rattle.registry.specs.Predeclared.{predeclared};
ghost use Rattle.facet_slots.specs.Agreement.{IsGrown};
ghost use Rattle.facet_slots.specs.Lent.{definitions};
ghost use Rattle.facet_slots.specs.Slotted.{plain};
ghost use Rattle.state.specs.Plainly.{config_after, unordered, unordered_config, updated_from};
ghost use Rattle.state.specs.Steps.{IsStepPaid, IsStepTo};
ghost use Rattle.state.specs.PrivateFound.{IsConfigFound};

use crate::drafted::drafted;
use crate::reconfigured::{reconfigured, shared_config};
use crate::state_error::StateError;
use crate::stepped::after_draft;
use configuration::Config;
use facet_slots::Slots;
use listed::Listed;
use registry::Registry;
use std::alloc::Global;
use std::rc::Rc;
use std::sync::ledger::Ledger;
use steps::Steps;
use transaction::{Effect, Spec};
use values::{Kit, Meanings, Val};

/// The configuration that takes the place of a state's by effects, to be shared by states. None where no effect is on the
/// configuration. `Err`: why there is none after them, or out of memory.
fn found_after<M: Meanings>(
    alloc: Global,
    registry: &Registry<M>,
    slots: &Slots<M>,
    effects: &Listed<Effect<Val>>,
) -> Result<Option<Rc<Config>>, StateError>
    ensures config { IfOk result (λ found. IsConfigFound registry.now slots.now.setup.config effects.now (option_map rc_value found)) }
    ensures found { IfOk result (λ found. config_after registry.now slots.now.setup.config effects.now ≡ Ok (option_map unordered_config (option_map rc_value found))) }
    ensures refused { IfErr result (λ error. error ≢ StateError.NoMemory → config_after registry.now slots.now.setup.config effects.now ≡ Err error) }
{
    match reconfigured(alloc, registry, slots.config(), effects.as_slice())? {
        Some(config) => Ok(Some(shared_config(alloc, config)?)),
        None => Ok(None),
    }
}

/// The slots after an update, or why there are none.
pub fn updated<M: Meanings, L: Ledger>(
    alloc: Global,
    kit: &Kit<M>,
    registry: &Registry<M>,
    slots: &Slots<M>,
    specs: Vec<Spec<Val>>,
    calls: &mut Steps<L>,
) -> Result<Slots<M>, StateError>
    requires whole { IsWhole M.rules kit.now }
    requires predeclared { IsGrown (definitions predeclared) slots.now.setup.defs }
    requires grown { IsGrown slots.now.setup.defs (definitions registry.now) }
    ensures updated { IfOk result (λ s. updated_from M.rules registry.now (unordered (plain slots.now)) specs.items ≡ Ok (unordered (plain s))) }
    ensures defs { IfOk result (λ s. s.setup.defs ≡ definitions registry.now) }
    ensures cost { IfOk result (λ s. IsStepTo M.rules registry.now (plain slots.now) specs.items s.setup calls.old calls.new) }
    ensures refused { IfErr result (λ error. error ≢ StateError.NoMemory → updated_from M.rules registry.now (unordered (plain slots.now)) specs.items ≡ Err error) }
    ensures uncalled { IfErr result (λ error. error ≢ StateError.NoMemory → calls.new ≡ calls.old) }
    ensures paid { IsStepPaid M.rules registry.now (plain slots.now) specs.items calls.old calls.new }
{
    let draft = drafted(alloc, kit, registry, slots, specs)?;
    let config = found_after(alloc, registry, slots, &draft.effects)?;
    let slots = after_draft(alloc, kit, registry, slots, config, draft, calls)?;
    Ok(slots)
}
