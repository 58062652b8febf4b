// The sixteen 4x4 luma blocks of a macroblock in the order in which a record holds them (clause 6.4.3, Figure 6-10): the Rust's LUMA_4X4_SCAN_XY. The hot
// code computes the same from the rule.
ghost use Rattle.std.specs.Prelude.{◌≡◌, get_or};
ghost use Rattle.cut.specs.Cut.{scan_columns, scan_rows};

// The column and the row of each block.
pub const LUMA_4X4_SCAN_XY: [(u8, u8); 16] = [
    (0, 0),
    (1, 0),
    (0, 1),
    (1, 1),
    (2, 0),
    (3, 0),
    (2, 1),
    (3, 1),
    (0, 2),
    (1, 2),
    (0, 3),
    (1, 3),
    (2, 2),
    (3, 2),
    (2, 3),
    (3, 3),
];

// The column of block k, and 0 where there is no such block.
pub fn scan_column(k: usize) -> u8
    ensures { result ≡ get_or scan_columns k 0 }
{
    LUMA_4X4_SCAN_XY.get(k).map_or(0, |at| at.0)
}

// The row of block k, and 0 where there is no such block.
pub fn scan_row(k: usize) -> u8
    ensures { result ≡ get_or scan_rows k 0 }
{
    LUMA_4X4_SCAN_XY.get(k).map_or(0, |at| at.1)
}
