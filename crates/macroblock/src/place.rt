// Where a macroblock and its blocks stand in their planes (clause 6.4.3).
ghost use Rattle.std.specs.Prelude.{◌≡◌};
ghost use Rattle.cut.specs.inner.Blocks.{BlockOf};
ghost use Rattle.macroblock.specs.Square.{place_of};
ghost use Rattle.macroblock.specs.inner.Blocks.{Low, luma_place};

use super::Strides;
use cut::{scan_x, scan_y};
use maps::neighbours::Marks;

// Where a block stands: its row and its column among the blocks of its side, in a plane with that stride.
#[derive(Clone, Copy)]
pub(crate) struct Place {
    pub stride: usize,
    pub row: usize,
    pub column: usize,
}

// Where a macroblock stands, in columns and rows of macroblocks and in planes with these strides, and which of its neighbours are there.
#[derive(Clone, Copy)]
pub(crate) struct Spot {
    pub x: usize,
    pub y: usize,
    pub strides: Strides,
    pub marks: Marks,
}

// Where luma block k of m across stands.
pub(crate) fn place_of(k: usize, m: usize, spot: Spot) -> Place
    requires block_of { BlockOf m k }
    requires low { Low (luma_place spot) }
    ensures { result ≡ place_of m (luma_place spot) k }
{
    let row = spot.y * m + scan_y(k);
    let column = spot.x * m + scan_x(k);
    Place {
        stride: spot.strides.luma,
        row,
        column,
    }
}
