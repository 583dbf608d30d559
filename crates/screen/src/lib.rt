//! The screen: what a window shows of a document, kept from one frame to the next.
//!
//! `Screen::draw` shows a `View` of a document. It lays out only the rows whose pieces, tab size or columns differ from
//! those of the same row drawn last, and puts the cursor where the main range's head stands. A layer above may rely on
//! functions of the view alone: `rendered` of specs/Screen, the whole view rendered anew, `cursor_in` of specs/Head, and
//! `revealed_window` of specs/Reveal, the window that `reveal` gives. `shown_rows` counts the rows that show a block.
#![tactic(auto)]

mod drawn_row;
mod head;
mod screen;
mod shown;
mod view;

pub use drawn_row::DrawnRow;
pub use head::reveal;
pub use line_rows::Cursor;
pub use screen::Screen;
pub use shown::shown_rows;
pub use view::View;
