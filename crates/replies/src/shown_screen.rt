use cm_plain::Str;
use listed::Listed;

/// What a window shows.
#[derive(Drop)]
pub struct ShownScreen {
    pub cursor: ShownCursor,
    /// The runs of each row, from its first column on.
    pub rows: Listed<Listed<ShownRun>>,
}

/// Where the cursor stands in the window, both from 0.
#[derive(Clone, Copy, Drop)]
pub struct ShownCursor {
    pub row: u32,
    pub column: u32,
}

/// A part of a row in one style.
#[derive(Drop)]
pub struct ShownRun {
    pub text: Str,
    /// The codes of its style, parted by semicolons (ECMA-48, select graphic rendition); empty where it has none.
    pub codes: Str,
}
