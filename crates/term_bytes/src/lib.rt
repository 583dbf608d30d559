//! The bytes that draw rows of runs in a terminal.
//!
//! `frame` gives them: a layer above may rely on their being exactly those of `frame` of specs/Frame, which begin at the
//! first row, erase what is left of each, and put the cursor where it stands; and on their reading back as the rows and the
//! cursor (`ReadsBack` of specs/Reading), where no run has a control character. `separated_codes` gives the codes of a
//! style alone.
#![tactic(auto)]

mod frame_bytes;
mod shown_rows;
mod style_bytes;

pub use frame_bytes::frame;
pub use shown_rows::shown_row;
pub use style_bytes::separated_codes;
