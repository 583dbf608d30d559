// The extensions that a configuration is resolved from.
ghost use Rattle.std.specs.Prelude.{◌≡◌, [], IfOk, OnOk};
ghost use Rattle.state.specs.Reconfigured.{extended, extensions_after, extensions_of};

use compartments::Contents;
use configuration::Config;
use ext_tree::ExtId;
use listed::Listed;
use std::alloc::{AllocError, Global};
use transaction::Effect;
use values::Val;

/// The extensions that a configuration is resolved from: the nodes of its base, which are the root's and then those that were
/// appended, and the set contents of compartments.
#[derive(Drop)]
pub struct Extensions {
    pub base: Listed<ExtId>,
    pub contents: Contents,
}

impl Extensions {
    /// The nodes of a base, where no compartment is set. `Err`: out of memory.
    pub fn base(alloc: Global, base: &[ExtId]) -> Result<Extensions, AllocError>
        ensures { IfOk result (λ extensions. extensions ≡ record { base = base.now; contents = [] }) }
    {
        let base = base.to_vec(alloc)?;
        Ok(Extensions {
            base: Listed::new(base),
            contents: Contents::empty(alloc),
        })
    }

    /// Those that a configuration was resolved from. `Err`: out of memory.
    fn of(alloc: Global, config: &Config) -> Result<Extensions, AllocError>
        ensures { IfOk result (λ extensions. extensions ≡ extensions_of config.now) }
    {
        let base = config.base().to_vec(alloc)?;
        let contents = config.contents().try_copy()?;
        Ok(Extensions {
            base: Listed::new(base),
            contents,
        })
    }

    /// Does what an effect asks for.
    fn extend(&mut self, alloc: Global, effect: &Effect<Val>) -> Result<(), AllocError>
        ensures { OnOk result (self.new ≡ extended self.old effect.now) }
    {
        match effect {
            Effect::Kind { .. } => Ok(()),
            Effect::Reconfigure { compartment, to } => self.contents.set(*compartment, *to),
            Effect::Root(nodes) => {
                let root = nodes.as_slice().to_vec(alloc)?;
                self.base = Listed::new(root);
                Ok(())
            }
            Effect::Append(node) => self.base.push(*node),
        }
    }

    /// Those that effects lead to from a configuration. `Err`: out of memory.
    pub fn after(
        alloc: Global,
        config: &Config,
        effects: &[Effect<Val>],
    ) -> Result<Extensions, AllocError>
        ensures { IfOk result (λ extensions. extensions ≡ extensions_after (extensions_of config.now) effects.now) }
    {
        let mut extensions = Extensions::of(alloc, config)?;
        for effect in effects {
            extensions.extend(alloc, effect)?;
        }
        Ok(extensions)
    }
}
