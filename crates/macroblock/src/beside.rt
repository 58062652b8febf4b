// The samples beside a block, read from the plane as it stands. An absent side is not read, and leaves zeros.
ghost use Rattle.std.specs.Prelude.{◌≡◌, ◌*◌, ◌≤◌, length, replicate};
ghost use Rattle.macroblock.specs.Square.{above_of, left_of, corner_of};
ghost use Rattle.macroblock.specs.inner.Blocks.{StandsIn};

use super::place::Place;
use basics::marks::Sides;

// All of them: above and left, in arrays that come filled with zeros, and the corner.
#[inline(always)]
pub(crate) fn read_beside<const Q: usize, const W: usize>(
    plane: &[u8],
    place: Place,
    sides: Sides,
    top: &mut [u8; W],
    left: &mut [u8; Q],
) -> u8
    requires stands_in { StandsIn Q place (length plane.now) sides }
    requires wide { (Q ≤ W) × (W ≤ 2 * Q) }
    requires zeros { (top.old ≡ replicate W 0) × (left.old ≡ replicate Q 0) }
    ensures top_after { top.new ≡ above_of Q place plane.now sides W }
    ensures left_after { left.new ≡ left_of Q place plane.now sides }
    ensures value { result ≡ corner_of Q place plane.now sides }
{
    above_of::<Q, W>(plane, place, sides, top);
    left_of::<Q>(plane, place, sides, left);
    corner_of::<Q>(plane, place, sides)
}

// The samples above a block: those over it, and those above and to the right, which repeat the last one where they are not there.
fn above_of<const Q: usize, const W: usize>(
    plane: &[u8],
    place: Place,
    sides: Sides,
    out: &mut [u8],
)
    requires stands_in { StandsIn Q place (length plane.now) sides }
    requires wide { (Q ≤ W) × (W ≤ 2 * Q) }
    requires zeros { out.old ≡ replicate W 0 }
    ensures { out.new ≡ above_of Q place plane.now sides W }
{
    if sides.above {
        let line = &plane[(place.row * Q - 1) * place.stride + place.column * Q..];
        // one by one: a copy of a slice asks at run time whether the two overlap, and is slower
        for t in 0..Q {
            out[t] = line[t];
        }
        if sides.above_right {
            for t in Q..W {
                out[t] = line[t];
            }
        } else {
            out[Q..].fill(line[Q - 1]);
        }
    }
}

// The samples left of a block.
#[inline(always)]
fn left_of<const Q: usize>(plane: &[u8], place: Place, sides: Sides, out: &mut [u8; Q])
    requires stands_in { StandsIn Q place (length plane.now) sides }
    requires zeros { out.old ≡ replicate Q 0 }
    ensures { out.new ≡ left_of Q place plane.now sides }
{
    if sides.left {
        // the place in the plane is computed from the number of the row
        for t in 0..Q {
            out[t] = plane[(place.row * Q + t) * place.stride + (place.column * Q - 1)];
        }
    }
}

// The sample above and to the left of a block.
#[inline(always)]
#[tactic(auto, unfolding(crate::specs::Square::corner_of))]
fn corner_of<const Q: usize>(plane: &[u8], place: Place, sides: Sides) -> u8
    requires { StandsIn Q place (length plane.now) sides }
    ensures { result ≡ corner_of Q place plane.now sides }
{
    if sides.corner {
        return plane[(place.row * Q - 1) * place.stride + (place.column * Q - 1)];
    }
    0
}
