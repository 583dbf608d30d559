// All cases, with one kit.
ghost use Rattle.std.specs.Prelude.{⊤};

use crate::{filtering, refusals, updates};
use shipped_kit::{KitUser, lend_kit};
use shipped_rules::Shipped;
use std::alloc::Global;
use std::test::*;
use values::Kit;

/// Whether all cases hold under a kit.
#[derive(Drop)]
struct AllHold;

impl KitUser for AllHold {
    type Answer = bool;

    ghost gives = { λ before answer after. ⊤ };

    fn use_kit(&mut self, alloc: Global, kit: &Kit<Shipped>) -> bool {
        updates::all_hold(alloc, kit)
            && filtering::all_hold(alloc, kit)
            && refusals::all_hold(alloc, kit)
    }
}

#[test]
fn states_under_the_shipped_rules(rt: HostRuntime) -> Result<(), Fail> {
    assert!(rt; lend_kit(rt.alloc(), &mut AllHold)?);
    Ok(())
}
