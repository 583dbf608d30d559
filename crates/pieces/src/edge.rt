/// The edges of a window that shows the columns from `left` to `left + cols - 1`, where tabs stop at multiples of `tab`
/// columns, from 1 to 16.
#[derive(Clone, Copy, Drop)]
pub struct Edge {
    pub tab: u8,
    pub left: u128,
    pub cols: u32,
}
