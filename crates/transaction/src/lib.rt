//! Transactions: specs of changes, selections, effects and annotations, and how several are merged into one draft.
//!
//! A layer above may rely on `resolve` and `merge` giving exactly the merge that the definitions name, on their refusals
//! being the first of the order that the definitions name, with their values, on a draft's selection lying in its new
//! document, and on what undoes a draft's effects. Filters, the values of effects and what their maps do belong to layers
//! above.
#![tactic(auto)]

mod annotation;
mod draft;
mod effect;
mod effect_kinds;
mod effect_maps;
mod effect_value;
mod error;
mod extras;
mod frame;
mod inverted;
mod lookup;
mod meeting;
mod merging;
mod spec;

pub use annotation::{Annotation, USER_EVENT};
pub use draft::Draft;
pub use effect::Effect;
pub use effect_kinds::EffectKinds;
pub use effect_maps::EffectMaps;
pub use effect_value::EffectValue;
pub use error::TransactionError;
pub use frame::Frame;
pub use merging::{merge, resolve};
pub use spec::{SelectionSpec, Spec};
