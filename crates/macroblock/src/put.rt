// Blocks put into a plane: prediction and residual, added and clipped (clause 8.5.14). Where all residuals are 0 the sums are the prediction, copied.
ghost use Rattle.std.specs.Prelude.{◌≡◌, ℕ, ◌+◌, ◌*◌, ◌≤◌, ◌<◌, ℤ, pos, length};
ghost use Rattle.laws.specs.Range.{at};
ghost use Rattle.macroblock.specs.Square.{put_block};
ghost use Rattle.macroblock.specs.inner.Blocks.{BlockIn, RoomIn, Coded, in_piece, in_pieces, sum_over, added, quad_place};

use super::place::Place;
use cut::{scan_x, scan_y};
use residual::reconstruct::{Window, sum_of};

// Residuals of a macroblock's blocks, with a mark for each 64 of them: where it is 0, so are they.
#[derive(Clone, Copy)]
pub(crate) struct Residuals<'a> {
    pub list: &'a [i16; 384],
    pub coded: &'a [u8; 6],
    ghost marked: { Coded list.now coded.now },
}

// The residuals of a block of side N, which are added to a prediction row by row.
trait Residual<const N: usize> {
    ghost value: { Self → ℕ → ℕ → ℤ };

    fn put_row(&self, y: usize, pred: &[u8], row: &mut [u8])
        requires { (y < N) × (N ≤ length pred.now) × (N ≤ length row.old) }
        ensures { row.new ≡ added N pred.now (λ x. value self.now x y) row.old };
}

// Those of a 4x4 coefficient block.
#[derive(Clone, Copy)]
struct Piece<'a> {
    list: &'a [i16],
    ghost long: { length list.now ≡ 16 },
}

impl Residual<4> for Piece<'_> {
    ghost value = { λ s x y. at s.list.now (4 * y + x) };

    #[inline(always)]
    fn put_row(&self, y: usize, pred: &[u8], row: &mut [u8]) {
        add_four(&self.list[4 * y..], pred, row);
    }
}

// Those of an 8x8 coefficient block.
#[derive(Clone, Copy)]
struct Block<'a> {
    list: &'a [i16],
    ghost long: { length list.now ≡ 64 },
}

impl Residual<8> for Block<'_> {
    ghost value = { λ s x y. at s.list.now (8 * y + x) };

    #[inline(always)]
    fn put_row(&self, y: usize, pred: &[u8], row: &mut [u8]) {
        let list = &self.list[8 * y..];
        add_four(list, pred, row);
        add_four(&list[4..], &pred[4..], &mut row[4..]);
    }
}

// Those of four 4x4 coefficient blocks.
#[derive(Clone, Copy)]
struct Quad<'a> {
    list: &'a [i16],
    ghost long: { length list.now ≡ 64 },
}

impl Residual<8> for Quad<'_> {
    ghost value = { λ s x y. at s.list.now (quad_place x y) };

    #[inline(always)]
    fn put_row(&self, y: usize, pred: &[u8], row: &mut [u8]) {
        let list = &self.list[y / 4 * 32 + y % 4 * 4..];
        add_four(list, pred, row);
        add_four(&list[16..], &pred[4..], &mut row[4..]);
    }
}

// None but 0: the sums are the prediction, copied.
#[derive(Clone, Copy)]
struct Blank;

impl Residual<8> for Blank {
    ghost value = { λ _ _ _. pos 0 };

    #[inline(always)]
    fn put_row(&self, _y: usize, pred: &[u8], row: &mut [u8]) {
        copy_eight(pred, row);
    }
}

// ---- the first samples of a row, one by one. All are read before one is written: the compiled code then takes them side by side, without memory of their own,
// which a loop over an array costs: a macroblock took 30 to 50 in 100 longer. `residual` has the four sums of its own rows: each asks something of its callers,
// and a public function asks nothing.
fn add_four(res: &[i16], pred: &[u8], row: &mut [u8])
    requires { (4 ≤ length res.now) × (4 ≤ length pred.now) × (4 ≤ length row.old) }
    ensures { row.new ≡ added 4 pred.now (at res.now) row.old }
{
    let a = sum_of(pred[0], res[0]);
    let b = sum_of(pred[1], res[1]);
    let c = sum_of(pred[2], res[2]);
    let d = sum_of(pred[3], res[3]);
    row[0] = a;
    row[1] = b;
    row[2] = c;
    row[3] = d;
}

fn copy_eight(pred: &[u8], row: &mut [u8])
    requires { (8 ≤ length pred.now) × (8 ≤ length row.old) }
    ensures { row.new ≡ added 8 pred.now (λ _. pos 0) row.old }
{
    let a = pred[0];
    let b = pred[1];
    let c = pred[2];
    let d = pred[3];
    let e = pred[4];
    let f = pred[5];
    let g = pred[6];
    let h = pred[7];
    row[0] = a;
    row[1] = b;
    row[2] = c;
    row[3] = d;
    row[4] = e;
    row[5] = f;
    row[6] = g;
    row[7] = h;
}

// A block of side N, row by row. The side is a constant, so that the compiled code takes a row's samples side by side.
#[inline(always)]
fn put_block<const N: usize, R: Residual<N>>(
    plane: &mut [u8],
    place: Place,
    pred: &[u8],
    from: Window,
    residual: &R,
)
    requires { BlockIn N place (length plane.old) × RoomIn N from.off from.stride (length pred.now) }
    ensures { plane.new ≡ put_block N place (sum_over pred.now from.off from.stride (R.value residual.now)) plane.old }
{
    let off = place.row * N * place.stride + place.column * N;
    // by its number a row stands in the prediction and in the plane
    for y in 0..N {
        residual.put_row(
            y,
            &pred[from.off + y * from.stride..],
            &mut plane[off + y * place.stride..],
        );
    }
}

// A block of kind 0 and one of kind 1 have functions of their own, here and in `squares`: their residuals and marks are found in other ways, so one function of
// both would be no shorter.

// Luma block b of kind 0, from its prediction and its sixteen residuals.
pub(crate) fn put_4x4(
    plane: &mut [u8],
    place: Place,
    pred: &[u8; 16],
    residuals: Residuals,
    b: usize,
)
    requires block_in { BlockIn 4 place (length plane.old) }
    requires b_bound { b < 16 }
    ensures { plane.new ≡ put_block 4 place (sum_over pred.now 0 4 (in_piece residuals.entry.list.now b)) plane.old }
{
    let list = residuals.list;
    let own = Piece {
        list: &list[16 * b..16 * b + 16],
    };
    put_block::<4, Piece>(plane, place, pred, Window { off: 0, stride: 4 }, &own);
}

// Luma block k of kind 1, from its prediction and its 64 residuals.
pub(crate) fn put_8x8(
    plane: &mut [u8],
    place: Place,
    pred: &[u8; 64],
    residuals: Residuals,
    k: usize,
)
    requires block_in { BlockIn 8 place (length plane.old) }
    requires k_bound { k < 4 }
    ensures { plane.new ≡ put_block 8 place
        (sum_over pred.now 0 8 (λ x y. at residuals.entry.list.now (64 * k + (8 * y + x)))) plane.old }
{
    let from = Window { off: 0, stride: 8 };
    if residuals.coded[k] != 0 {
        let list = residuals.list;
        let own = Block {
            list: &list[64 * k..64 * k + 64],
        };
        put_block::<8, Block>(plane, place, pred, from, &own);
    } else {
        put_block::<8, Blank>(plane, place, pred, from, &Blank);
    }
}

// Quad q: an 8x8 block of four pieces, from its prediction and their residuals.
pub(crate) fn put_quad(
    plane: &mut [u8],
    place: Place,
    pred: &[u8],
    from: Window,
    residuals: Residuals,
    q: usize,
)
    requires block_in { BlockIn 8 place (length plane.old) × RoomIn 8 from.off from.stride (length pred.now) }
    requires q_bound { q < 6 }
    ensures { plane.new ≡ put_block 8 place
        (sum_over pred.now from.off from.stride (in_pieces residuals.entry.list.now (4 * q))) plane.old }
{
    if residuals.coded[q] != 0 {
        let list = residuals.list;
        let quad = Quad {
            list: &list[64 * q..64 * q + 64],
        };
        put_block::<8, Quad>(plane, place, pred, from, &quad);
    } else {
        put_block::<8, Blank>(plane, place, pred, from, &Blank);
    }
}

// The luma block of kind 2, quad by quad.
pub(crate) fn put_16x16(plane: &mut [u8], place: Place, pred: &[u8; 256], residuals: Residuals)
    requires { BlockIn 16 place (length plane.old) }
    ensures { plane.new ≡ put_block 16 place (sum_over pred.now 0 16 (in_pieces residuals.entry.list.now 0)) plane.old }
{
    // by its number a quad has its place and its residuals
    for k in 0..4 {
        let u = scan_x(k);
        let v = scan_y(k);
        let quad = Place {
            stride: place.stride,
            row: place.row * 2 + v,
            column: place.column * 2 + u,
        };
        let from = Window {
            off: v * 128 + u * 8,
            stride: 16,
        };
        put_quad(plane, quad, pred, from, residuals, k);
    }
}
