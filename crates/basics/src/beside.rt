// What stands beside a block: which of its sides are there, and the samples above it, left of it and at its corner.
use super::marks::Sides;

#[derive(Clone, Copy)]
pub struct Beside<'a> {
    pub sides: Sides,
    pub above: &'a [u8],
    pub left: &'a [u8],
    pub corner: u8,
}
