//! The line that answers a line of a script: an answer or a refusal, as JSON.
//!
//! The layer above may rely on this: `reply_text` gives the compact JSON text of a reply and a line feed, exactly as the
//! definitions of specs/ write each answer and each refusal, but for out of memory.
#![tactic(auto)]

mod answer;
mod answer_values;
mod coded;
mod declaration_values;
mod extension_values;
mod mapped;
mod objects;
mod outside_values;
mod refusal_values;
mod reply;
mod scalar;
mod screen_values;
mod selection_values;
mod set_values;
mod shown;
mod shown_screen;
mod shown_values;
mod texts;
mod written;

pub use answer::{Answer, Reply, Summary};
pub use mapped::{Mapped, MappedParts, MappedPlace};
pub use reply::reply_text;
pub use shown::{Shown, ShownRange};
pub use shown_screen::{ShownCursor, ShownRun, ShownScreen};
