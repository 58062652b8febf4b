// The groups of samples beside a block that a mode reads where some are marked as available: none where the mode is unknown or not permitted. As four
// marks, and as one number: 1 above, 2 left, 4 corner, 8 above-right, added up. All marks of a set are computed side by side, with no branch.
ghost use Rattle.std.specs.Prelude.{◌≡◌, cond, ◌&&◌, ◌≤◌};
ghost use Rattle.reads.specs.Exactly.{Predictor as Definition, Exactly, luma4x4, luma8x8, luma16x16, chroma8x8};
ghost use Rattle.reads.specs.Groups.{groups_of, group_set, named_nxn, reads4x4, reads8x8};

use basics::marks::{Sides, permits_16x16, permits_chroma, permits_nxn};

// A predictor of blocks. What each one reads beside a block is told exactly. A mode is any number: C asks of numbers that name no mode too (`reads4x4`).
pub trait Predictor {
    ghost definition: { Definition };

    // The groups that a mode reads of the sides that are there.
    fn groups(mode: u8, sides: Sides) -> Sides
        ensures value { groups_of result ≡ definition.reads (groups_of sides) mode }
        ensures exactly { Exactly definition };

    // The same as one number.
    final fn reads(mode: u8, sides: Sides) -> u8
        ensures value { result ≡ group_set (definition.reads (groups_of sides) mode) }
        ensures exactly { Exactly definition }
    {
        set_of(Self::groups(mode, sides))
    }
}

// A 4x4 luma block.
pub struct Luma4x4;

impl Predictor for Luma4x4 {
    ghost definition = { luma4x4 };

    fn groups(mode: u8, sides: Sides) -> Sides {
        let permitted = permits_nxn(mode, sides);
        read_of(permitted, named_nxn(mode), sides)
    }
}

// An 8x8 luma block.
pub struct Luma8x8;

impl Predictor for Luma8x8 {
    ghost definition = { luma8x8 };

    fn groups(mode: u8, sides: Sides) -> Sides {
        filtered(mode, Luma4x4::groups(mode, sides), sides)
    }
}

// A 16x16 luma block: never above-right.
pub struct Luma16x16;

impl Predictor for Luma16x16 {
    ghost definition = { luma16x16 };

    fn groups(mode: u8, sides: Sides) -> Sides {
        let permitted = permits_16x16(mode, sides);
        let named = Sides {
            above: mode != 1,
            left: mode != 0,
            corner: mode == 3,
            above_right: false,
        };
        read_of(permitted, named, sides)
    }
}

// An 8x8 chroma block: never above-right.
pub struct Chroma8x8;

impl Predictor for Chroma8x8 {
    ghost definition = { chroma8x8 };

    fn groups(mode: u8, sides: Sides) -> Sides {
        let permitted = permits_chroma(mode, sides);
        let named = Sides {
            above: mode != 1,
            left: mode != 2,
            corner: mode == 3,
            above_right: false,
        };
        read_of(permitted, named, sides)
    }
}

// The groups that the formula of a 4x4 or 8x8 mode names.
fn named_nxn(mode: u8) -> Sides
    ensures { groups_of result ≡ named_nxn mode }
{
    Sides {
        above: !((mode == 1) | (mode == 8)),
        left: !((mode == 0) | (mode == 3) | (mode == 7)),
        corner: (mode == 4) | (mode == 5) | (mode == 6),
        above_right: (mode == 3) | (mode == 7),
    }
}

// What an 8x8 block reads where a 4x4 block reads so: the filter takes the corner to the sides that are read, and above-right to the last sample above.
fn filtered(mode: u8, read: Sides, there: Sides) -> Sides
    ensures { groups_of read ≡ reads4x4 (groups_of there) mode → groups_of result ≡ reads8x8 (groups_of there) mode }
{
    Sides {
        above: read.above,
        left: read.left,
        corner: (read.above | read.left) & there.corner,
        above_right: read.above & (mode != 6) & there.above_right,
    }
}

// The groups that a permitted mode names and that are there.
fn read_of(permitted: bool, named: Sides, there: Sides) -> Sides
    ensures { groups_of result ≡ (λ g. permitted && groups_of named g && groups_of there g) }
{
    Sides {
        above: permitted & named.above & there.above,
        left: permitted & named.left & there.left,
        corner: permitted & named.corner & there.corner,
        above_right: permitted & named.above_right & there.above_right,
    }
}

// A set of groups as one number.
fn set_of(read: Sides) -> u8
    ensures { result ≡ group_set (groups_of read) }
{
    number_if(read.above, 1)
        + number_if(read.left, 2)
        + number_if(read.corner, 4)
        + number_if(read.above_right, 8)
}

fn number_if(on: bool, n: u8) -> u8
    ensures { (result ≡ cond on n 0) × (result ≤ n) }
{
    if on { n } else { 0 }
}
