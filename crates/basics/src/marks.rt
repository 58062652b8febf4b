// The permitted modes of a block (clauses 8.3.1.2, 8.3.2.2, 8.3.3 and 8.3.4), from the marks of above, left and corner: as one number, bit m for
// mode m, and mode by mode.
ghost use Rattle.std.specs.Prelude.{◌≡◌, cond, ◌&&◌, ◌<◌, eqb};
ghost use Rattle.refusals.specs.Refusal.{number_of};
ghost use Rattle.basics.specs.Marks.{permitted_nxn, permitted16x16, permitted_chroma, mode_set, bit, lists_answer};

use refusals::Refusal;

// Four sides of a block, each with a mark: above, left, the corner, and above and to the right.
#[derive(Clone, Copy, Debug, Default, PartialEq, Eq)]
pub struct Sides {
    pub above: bool,
    pub left: bool,
    pub corner: bool,
    pub above_right: bool,
}

// The permitted modes of a 4x4 or 8x8 luma block.
#[inline]
#[tactic(auto, using(crate::proofs::Permits::set_nxn))]
pub fn permitted_nxn(sides: Sides) -> u16
    ensures { result ≡ mode_set 9 (permitted_nxn sides.above sides.left sides.corner) }
{
    bits_if(sides.above, (1 << 0) | (1 << 3) | (1 << 7))
        | bits_if(sides.left, (1 << 1) | (1 << 8))
        | (1 << 2)
        | bits_if(all_three(sides), (1 << 4) | (1 << 5) | (1 << 6))
}

// The permitted modes of a 16x16 luma block.
#[inline]
#[tactic(auto, using(crate::proofs::Permits::set_16x16))]
pub fn permitted_16x16(sides: Sides) -> u16
    ensures { result ≡ mode_set 4 (permitted16x16 sides.above sides.left sides.corner) }
{
    bits_if(sides.above, 1 << 0)
        | bits_if(sides.left, 1 << 1)
        | (1 << 2)
        | bits_if(all_three(sides), 1 << 3)
}

// The permitted modes of an 8x8 chroma block.
#[inline]
#[tactic(auto, using(crate::proofs::Permits::set_chroma))]
pub fn permitted_chroma(sides: Sides) -> u16
    ensures { result ≡ mode_set 4 (permitted_chroma sides.above sides.left sides.corner) }
{
    (1 << 0)
        | bits_if(sides.left, 1 << 1)
        | bits_if(sides.above, 1 << 2)
        | bits_if(all_three(sides), 1 << 3)
}

// Whether a mode is permitted in a 4x4 or 8x8 luma block. This and the next two are a line each over their own sets; a trait for them would be longer.
#[inline]
#[tactic(auto, using(crate::proofs::Permits::bit_is_test))]
pub fn permits_nxn(mode: u8, sides: Sides) -> bool
    ensures { result ≡ permitted_nxn sides.above sides.left sides.corner mode }
{
    mode <= 8 && has_mode(permitted_nxn(sides), mode)
}

// Whether a mode is permitted in a 16x16 luma block.
#[inline]
#[tactic(auto, using(crate::proofs::Permits::bit_is_test))]
pub fn permits_16x16(mode: u8, sides: Sides) -> bool
    ensures { result ≡ permitted16x16 sides.above sides.left sides.corner mode }
{
    mode <= 3 && has_mode(permitted_16x16(sides), mode)
}

// Whether a mode is permitted in an 8x8 chroma block.
#[inline]
#[tactic(auto, using(crate::proofs::Permits::bit_is_test))]
pub fn permits_chroma(mode: u8, sides: Sides) -> bool
    ensures { result ≡ permitted_chroma sides.above sides.left sides.corner mode }
{
    mode <= 3 && has_mode(permitted_chroma(sides), mode)
}

// Whether a mode is in a set: the test by its mask.
#[tactic(auto, using(crate::proofs::Permits::mask))]
fn has_mode(set: u16, mode: u8) -> bool
    requires { mode < 16 }
    ensures { result ≡ eqb (bit set mode) 1 }
{
    set & (1u16 << mode) != 0
}

// The answer on the lists that a predictor of blocks of side n is handed, by their lengths: refused unless there are `wide` samples above, n left and
// n * n in the block.
#[inline]
pub fn lists_answer(
    n: u8,
    wide: usize,
    above: usize,
    left: usize,
    lent: usize,
) -> Result<(), Refusal>
    ensures { number_of result ≡ lists_answer n wide above left lent }
{
    let side = usize::from(n);
    if above != wide || left != side || lent != side * side {
        return Err(Refusal::Room);
    }
    Ok(())
}

fn bits_if(on: bool, bits: u16) -> u16
    ensures { result ≡ cond on bits 0 }
{
    if on { bits } else { 0 }
}

fn all_three(sides: Sides) -> bool
    ensures { result ≡ sides.above && sides.left && sides.corner }
{
    sides.above & sides.left & sides.corner
}
