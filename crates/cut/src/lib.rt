// How a macroblock's square is cut into blocks, where these stand (clause 6.4.3) and which of their sides are there (clauses 6.4.11 and 6.4.12).
#![tactic(auto)]

ghost use Rattle.std.specs.Prelude.{◌≡◌, cond, ◌&&◌, ◌+◌, ◌-◌, ◌≤◌, ◌<◌, min, eqb, ltb, leb};
ghost use Rattle.basics.specs.Nnz.{blk_idx};
ghost use Rattle.maps.specs.Neighbours.{marks_of};
ghost use Rattle.cut.specs.Cut.{scan_x, scan_y, square_sides, sides_in};

use basics::marks::Sides;
use maps::neighbours::Marks;

pub mod kind; // how the luma of a macroblock is cut
pub mod scan_xy; // 6.4.3: the order of the luma blocks, as the figure shows it

// The column and the row of blocks that block k stands in: computed, since a table is built anew at each use.
#[tactic(auto, unfolding(crate::specs::Cut::scan_x))]
pub fn scan_x(k: usize) -> usize
    ensures { result ≡ scan_x k }
{
    k % 2 + k / 4 % 2 * 2
}

#[tactic(auto, unfolding(crate::specs::Cut::scan_y))]
pub fn scan_y(k: usize) -> usize
    ensures { result ≡ scan_y k }
{
    k / 2 % 2 + k / 8 * 2
}

// The block in column `x` and row `y`, which is below 2^62 for every number of 64 bits.
fn blk_idx(x: usize, y: usize) -> usize
    requires { (x < 4) × (y < 4611686018427387904) }
    ensures { result ≡ blk_idx x y }
{
    x % 2 + y % 2 * 2 + x / 2 * 4 + y / 2 * 8
}

// The sides of block k of m across, where the caller knows that there is such a block: no number is tested.
pub fn sides_of(k: usize, m: usize, marks: Marks) -> Sides
    ensures { result ≡ sides_in m (marks_of marks) k }
{
    let u = scan_x(k);
    let v = scan_y(k);
    let above = v > 0 || marks.b;
    let left = u > 0 || marks.a;
    let corner = if v > 0 {
        left
    } else if u > 0 {
        marks.b
    } else {
        marks.d
    };
    let above_right = has_above_right(k, u, v, m.min(4), marks.b, marks.c);
    Sides {
        above,
        left,
        corner,
        above_right,
    }
}

// The sides of a square that is one block.
pub fn square_sides(marks: Marks) -> Sides
    ensures { result ≡ square_sides (marks_of marks) }
{
    Sides {
        above: marks.b,
        left: marks.a,
        corner: marks.d,
        above_right: marks.c,
    }
}

// Whether the samples above and to the right of block k, in column u and row v, are there.
fn has_above_right(k: usize, u: usize, v: usize, m: usize, b: bool, c: bool) -> bool
    requires { (u < 4) × (v < 4611686018427387904) × (m ≤ 4) }
    ensures { result ≡ cond (eqb v 0) (cond (leb (u + 2) m) b c) (leb (u + 2) m && ltb (blk_idx (u + 1) (v - 1)) k) }
{
    if v == 0 {
        return if u + 2 <= m { b } else { c };
    }
    u + 2 <= m && blk_idx(u + 1, v - 1) < k
}
