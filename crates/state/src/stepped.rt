// One step of the values.
ghost use Rattle.std.specs.Prelude.{◌≡◌, ◌<◌, ◌≤◌, ◌+◌, length, IfOk, Some, option_map};
ghost use Rattle.std.specs.Rc.{rc_value};
ghost use Rattle.values.specs.Whole.{IsWhole};
ghost use Rattle.registry.specs.declared.predeclared.TheConstants.{ALLOW_MULTIPLE_SELECTIONS};
ghost use Rattle.facet_slots.specs.Agreement.{IsGrown};
ghost use Rattle.facet_slots.specs.Lawful.{IsLawful};
ghost use Rattle.facet_slots.specs.Lent.{defs_of};
ghost use Rattle.facet_slots.specs.Making.{IsMade};
ghost use Rattle.facet_slots.specs.Resolving.{IsResolved};
ghost use Rattle.facet_slots.specs.Slotted.{plain};
ghost use Rattle.facet_slots.specs.Stepping.{step, Becomes};
ghost use Rattle.state.specs.Moving.{transaction_of};
ghost use Rattle.facet_slots.specs.Lent.{definitions};
ghost use Rattle.filters.specs.Starts.{StartsIn};
ghost use Rattle.state.specs.Drafting.{start_in};
ghost use Rattle.state.specs.Steps.{entered_target, step_calls};
ghost use Rattle.state.specs.PrivateStepping.{IsEntered};

use crate::definitions::definitions_now;
use crate::moved::transaction_of;
use configuration::{Config, Defs};
use facet_slots::Slots;
use registry::Registry;
use std::alloc::{AllocError, Global};
use std::rc::Rc;
use std::sync::ledger::Ledger;
use steps::Steps;
use transaction::Draft;
use values::{Kit, Meanings, TrView, Val};

/// The slots after the fields entered a configuration and a transaction was made in it.
fn entered<M: Meanings, L: Ledger>(
    alloc: Global,
    kit: &Kit<M>,
    slots: &Slots<M>,
    defs: Rc<Defs<Val>>,
    config: Rc<Config>,
    transaction: &TrView,
    calls: &mut Steps<L>,
) -> Result<Slots<M>, AllocError>
    requires whole { IsWhole M.rules kit.now }
    requires resolved { IsResolved (record { defs = defs_of defs.value; config = config.value }) }
    requires lawful { IsLawful M.rules (record { defs = defs_of defs.value; config = config.value }) }
    requires grown { IsGrown slots.now.setup.defs (defs_of defs.value) }
    requires made { IsMade slots.now.scene transaction.now }
    ensures state { IfOk result (λ s. plain s ≡ step M.rules (plain slots.now) (Becomes (record { defs = defs_of defs.value; config = config.value })) transaction.now) }
    ensures cost { calls.new ≤ calls.old + step_calls M.rules (plain slots.now) (Becomes (record { defs = defs_of defs.value; config = config.value })) transaction.now }
{
    let again = defs.clone()?;
    let mid = slots.reconfigure(alloc, kit, defs, config, calls)?;
    mid.update(alloc, kit, again, transaction, calls)
}

/// The slots after a transaction, for which the fields first enter a configuration, if one takes the place of the old one.
fn stepped<M: Meanings, L: Ledger>(
    alloc: Global,
    kit: &Kit<M>,
    registry: &Registry<M>,
    slots: &Slots<M>,
    config: Option<Rc<Config>>,
    transaction: &TrView,
    calls: &mut Steps<L>,
) -> Result<Slots<M>, AllocError>
    requires whole { IsWhole M.rules kit.now }
    requires grown { IsGrown slots.now.setup.defs (definitions registry.now) }
    requires config { IsEntered registry.now (option_map rc_value config) }
    requires made { IsMade slots.now.scene transaction.now }
    ensures state { IfOk result (λ s. plain s ≡ step M.rules (plain slots.now) (entered_target registry.now slots.now.setup.config (option_map rc_value config)) transaction.now) }
    ensures cost { calls.new ≤ calls.old + step_calls M.rules (plain slots.now) (entered_target registry.now slots.now.setup.config (option_map rc_value config)) transaction.now }
{
    slots.known();
    let defs = definitions_now(alloc, slots.defs(), registry.defs())?;
    match config {
        None => slots.update(alloc, kit, defs, transaction, calls),
        Some(config) => entered(alloc, kit, slots, defs, config, transaction, calls),
    }
}

/// The slots after a draft, for which the fields first enter a configuration, if one takes the place of the old one. `Err`: out
/// of memory.
pub fn after_draft<M: Meanings, L: Ledger>(
    alloc: Global,
    kit: &Kit<M>,
    registry: &Registry<M>,
    slots: &Slots<M>,
    config: Option<Rc<Config>>,
    draft: Box<Draft<Val>>,
    calls: &mut Steps<L>,
) -> Result<Slots<M>, AllocError>
    requires whole { IsWhole M.rules kit.now }
    requires grown { IsGrown slots.now.setup.defs (definitions registry.now) }
    requires several { ALLOW_MULTIPLE_SELECTIONS < length slots.now.setup.defs.facets }
    requires config { IsEntered registry.now (option_map rc_value config) }
    requires starts { StartsIn (start_in registry.now (plain slots.now)) draft.value }
    ensures state { IfOk result (λ s. plain s ≡ step M.rules (plain slots.now) (entered_target registry.now slots.now.setup.config (option_map rc_value config)) (transaction_of registry.now (plain slots.now) draft.value)) }
    ensures cost { calls.new ≤ calls.old + step_calls M.rules (plain slots.now) (entered_target registry.now slots.now.setup.config (option_map rc_value config)) (transaction_of registry.now (plain slots.now) draft.value) }
{
    let transaction = transaction_of(alloc, registry, slots, draft)?;
    stepped(alloc, kit, registry, slots, config, &transaction, calls)
}
