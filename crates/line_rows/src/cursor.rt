/// Where the cursor stands in a window: its row and its column, both from 0.
#[derive(Clone, Copy, Drop)]
pub struct Cursor {
    pub row: u32,
    pub column: u32,
}
