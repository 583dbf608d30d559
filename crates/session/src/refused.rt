// Why there is no state, as a refusal of a line.
ghost use Rattle.std.specs.Prelude.{◌≡◌, IfOk, Some};
ghost use Rattle.session.specs.Refused.{state_refusal};

use configuration::ConfigError;
use names::{Names, config_refusal};
use script::Refusal;
use state::StateError;
use std::alloc::{AllocError, Global};

/// The refusal of a state under its name, with names in place of ids. `Err`: out of memory.
pub(crate) fn named(alloc: Global, names: &Names, error: StateError) -> Result<Refusal, AllocError>
    ensures { IfOk result (λ r. state_refusal names.now error ≡ Some r) }
{
    match error {
        StateError::BadRange {
            index,
            from,
            to,
            len,
        } => Ok(Refusal::BadRange {
            index: index as u64,
            from,
            to,
            len,
        }),
        StateError::LengthMismatch { want, have } => Ok(Refusal::LengthMismatch { want, have }),
        StateError::TooLong { len, max } => Ok(Refusal::TooLong { len, max }),
        StateError::NoRanges => Ok(Refusal::NoRanges),
        StateError::BadMain { main, count } => Ok(Refusal::BadMain { main, count }),
        StateError::SelectionOutside { pos, len } => Ok(Refusal::SelectionOutside { pos, len }),
        StateError::UnknownEffect { id } => Ok(Refusal::UnknownEffect { id }),
        StateError::UnknownCompartment { id } => Ok(Refusal::UnknownCompartment { id }),
        StateError::NoMemory => Err(AllocError),
        StateError::UnknownExt { id } => {
            config_refusal(alloc, names, &ConfigError::UnknownExt { id })
        }
        StateError::DuplicateCompartment {
            compartment,
            first,
            second,
        } => config_refusal(
            alloc,
            names,
            &ConfigError::DuplicateCompartment {
                compartment,
                first,
                second,
            },
        ),
        StateError::CompartmentLoop { path } => {
            config_refusal(alloc, names, &ConfigError::CompartmentLoop { path })
        }
        StateError::Cycle { members } => {
            config_refusal(alloc, names, &ConfigError::Cycle { members })
        }
    }
}
