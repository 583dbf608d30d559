//! Script lines: the command that a JSON value is, or why it is refused.
//!
//! The layer above may rely on this: `line_command` gives the command of a line, or the first refusal in the order of the
//! table of fields, exactly, but for out of memory.
#![tactic(auto)]

mod annotation_reading;
mod changes_reading;
mod command;
mod declaration_refusal;
mod extension_refusal;
mod fields;
mod file_refusal;
mod item;
mod lines;
mod map_reading;
mod map_request;
mod member;
mod reading;
mod refusal;
mod selection_reading;
mod spec_reading;
mod start_request;
mod texts;
mod value_reading;
mod window_refusal;

pub use command::{Command, Commands};
pub use declaration_refusal::DeclarationRefusal;
pub use extension_refusal::ExtensionRefusal;
pub use fields::{members, only_fields, refused, required_member};
pub use file_refusal::FileRefusal;
pub use item::{Item, list};
pub use lines::{command_of, line_command};
pub use map_reading::read_map_request;
pub use map_request::{MapOp, MapParts, MapPlace, MapRequest, MapSets};
pub use member::{
    defaulted, list_or_empty, number_member, optional, required, text_if_there, text_member,
    text_or_empty,
};
pub use reading::no_fields;
pub use refusal::{LineError, Refusal};
pub use selection_reading::{first_selection, given_selection};
pub use spec_reading::{read_flags, read_notes};
pub use start_request::StartRequest;
pub use texts::cut_text;
pub use window_refusal::WindowRefusal;
