// The cases, with a kit whose calls of rules are counted.
ghost use Rattle.std.specs.Prelude.{⊤};

use crate::calls::are_rows;
use shipped_kit::{Gate, KitUser, lend_gated_kit};
use shipped_rules::Shipped;
use std::alloc::Global;
use std::test::*;
use values::Kit;

/// Whether each row is so, with a kit behind this gate.
#[derive(Drop)]
struct AreRows<'a> {
    gate: &'a Gate,
}

impl<'a> KitUser for AreRows<'a> {
    type Answer = bool;

    ghost gives = { λ before answer after. ⊤ };

    fn use_kit(&mut self, alloc: Global, kit: &Kit<Shipped>) -> bool {
        are_rows(alloc, kit, self.gate)
    }
}

#[test]
fn only_rules_that_are_due_are_called(rt: HostRuntime) -> Result<(), Fail> {
    let alloc = rt.alloc();
    let gate = Gate::new(alloc)?;
    let mut rows = AreRows { gate: &gate };
    assert!(rt; lend_gated_kit(alloc, &gate, &mut rows)?);
    Ok(())
}
