// What effects do to a configuration.
ghost use Rattle.std.specs.Prelude.{◌≡◌, ◌≢◌, Err, IfErr, IfOk, Ok, option_map};
ghost use Rattle.compartments.specs.Contents.{AreAscending};
ghost use Rattle.configuration.specs.Resolved.{IsCause};
ghost use Rattle.state.specs.Plainly.{config_after, config_from, unordered_config};
ghost use Rattle.state.specs.Reconfigured.{configures, extensions_after, extensions_of, is_configuring, tree_in, IsConfigOf};
ghost use Rattle.state.specs.PrivateFound.{IsConfigFound};

use crate::extensions::Extensions;
use crate::state_error::StateError;
use configuration::{Config, ConfigError};
use registry::Registry;
use std::alloc::{AllocError, Global};
use std::rc::Rc;
use transaction::Effect;
use values::{Meanings, Val};

fn is_configuring(effect: &Effect<Val>) -> bool
    ensures { result ≡ is_configuring effect.now }
{
    match effect {
        Effect::Kind { .. } => false,
        _ => true,
    }
}

/// Whether some effect is on the configuration.
fn configures(effects: &[Effect<Val>]) -> bool
    ensures { result ≡ configures effects.now }
{
    for effect in effects {
        if is_configuring(effect) {
            return true;
        }
    }
    false
}

/// The configuration that extensions come to over what is declared, or why they come to none.
fn resolved_here<M: Meanings>(
    alloc: Global,
    registry: &Registry<M>,
    extensions: &Extensions,
) -> Result<Config, ConfigError>
    ensures config { IfOk result (λ config. IsConfigOf registry.now extensions.now config) }
    ensures ascending { IfOk result (λ config. AreAscending config.contents) }
    ensures refused { IfErr result (λ error. IsCause (tree_in registry.now extensions.now) registry.now.facets registry.now.fields registry.now.node_defs extensions.now.base error) }
{
    let config = Config::resolve(
        alloc,
        registry.arena(),
        registry.defs(),
        extensions.base.as_slice(),
        &extensions.contents,
    )?;
    let _ = config.contents().nodes();
    Ok(config)
}

/// The configuration that extensions come to over what is declared, or why they come to none.
pub fn resolved<M: Meanings>(
    alloc: Global,
    registry: &Registry<M>,
    extensions: &Extensions,
) -> Result<Config, StateError>
    ensures config { IfOk result (λ config. IsConfigOf registry.now extensions.now config) }
    ensures found { IfOk result (λ config. config_from registry.now extensions.now ≡ Ok (unordered_config config)) }
    ensures refused { IfErr result (λ error. error ≢ StateError.NoMemory → config_from registry.now extensions.now ≡ Err error) }
{
    Ok(resolved_here(alloc, registry, extensions)?)
}

/// The configuration that the extensions come to after effects.
fn resolved_after<M: Meanings>(
    alloc: Global,
    registry: &Registry<M>,
    config: &Config,
    effects: &[Effect<Val>],
) -> Result<Config, StateError>
    ensures config { IfOk result (λ found. IsConfigOf registry.now (extensions_after (extensions_of config.now) effects.now) found) }
    ensures found { IfOk result (λ found. config_from registry.now (extensions_after (extensions_of config.now) effects.now) ≡ Ok (unordered_config found)) }
    ensures refused { IfErr result (λ error. error ≢ StateError.NoMemory → config_from registry.now (extensions_after (extensions_of config.now) effects.now) ≡ Err error) }
{
    let extensions = Extensions::after(alloc, config, effects)?;
    resolved(alloc, registry, &extensions)
}

/// The configuration that takes the place of one by effects, none where no effect is on the configuration; or why there is
/// none after them.
pub fn reconfigured<M: Meanings>(
    alloc: Global,
    registry: &Registry<M>,
    config: &Config,
    effects: &[Effect<Val>],
) -> Result<Option<Config>, StateError>
    ensures config { IfOk result (λ found. IsConfigFound registry.now config.now effects.now found) }
    ensures found { IfOk result (λ found. config_after registry.now config.now effects.now ≡ Ok (option_map unordered_config found)) }
    ensures refused { IfErr result (λ error. error ≢ StateError.NoMemory → config_after registry.now config.now effects.now ≡ Err error) }
{
    if configures(effects) {
        let config = resolved_after(alloc, registry, config, effects)?;
        Ok(Some(config))
    } else {
        Ok(None)
    }
}

/// A configuration to be shared by states. `Err`: out of memory.
pub fn shared_config(alloc: Global, config: Config) -> Result<Rc<Config>, AllocError>
    ensures { IfOk result (λ shared. shared.value ≡ config) }
{
    match Rc::new(alloc, config) {
        Ok(shared) => Ok(shared),
        Err(_) => Err(AllocError),
    }
}
