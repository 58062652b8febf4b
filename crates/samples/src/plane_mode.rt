// Plane prediction (clauses 8.3.3.4 and 8.3.4.4), over half the block's side, m, and the factor k.
ghost use Rattle.std.specs.Prelude.{◌≡◌, ◌++◌, ◌+◌, ◌-◌, ◌*◌, ◌/◌, ◌%◌, ◌≤◌, ◌<◌, pos, ◌+ℤ◌, ◌-ℤ◌, ◌*ℤ◌, length, get_or, drop};
ghost use Rattle.std.specs.Int.Signed.{shr_z};
ghost use Rattle.laws.specs.Range.{Within, minus};
ghost use Rattle.laws.specs.Table.{block_of, onto};
ghost use Rattle.basics.specs.Clip.{Min, Max, Clip1};
ghost use Rattle.basics.specs.Near.{Near};
ghost use Rattle.samples.specs.PlaneMode.{slope, gradient, ramp, plane};
ghost use Rattle.samples.specs.inner.Line.{Round, Stands};
ghost use Rattle.samples.specs.inner.Plane.{Sloped};

use super::line::{Around, line_of};
use basics::clip::clip_u8;

// a, b and c of the clauses.
#[derive(Clone, Copy)]
struct Levels {
    pub a: i32,
    pub b: i32,
    pub c: i32,
}

// The block of side 2m over the first bytes of `out`, from the samples beside it.
#[inline(always)]
pub(crate) fn plane_over(m: usize, k: u8, around: Around, out: &mut [u8])
    requires { (1 ≤ m) × (m ≤ 8) × (k ≤ 34) × Round (2 * m) around × (2 * m * (2 * m) ≤ length out.old) }
    ensures { (p : Near) → Stands (2 * m) around.entry p → around.entry.corner ≡ p 0 0
        → out.new ≡ block_of (2 * m) (plane m k p) ++ drop (2 * m * (2 * m)) out.old }
{
    ramp_over(2 * m, m - 1, levels_of(m, k, around), out);
}

// a, b and c, from the samples beside the block. Left is read first: where this and vertical prediction both begin above, half of that row is read before
// the mode is known, and vertical prediction then joins its rows from halves.
#[inline(always)]
fn levels_of(m: usize, k: u8, around: Around) -> Levels
    requires { (1 ≤ m) × (m ≤ 8) × (k ≤ 34) × Round (2 * m) around }
    ensures small { Within 8160 result.a × Within 2219552 result.b × Within 2219552 result.c }
    ensures sloped { (p : Near) → Stands (2 * m) around.entry p → around.entry.corner ≡ p 0 0 → Sloped m k p result.a result.b result.c }
{
    let f = line_of(2 * m, around.corner, around.left);
    let e = line_of(2 * m, around.corner, around.above);
    Levels {
        a: level_of(around.left.get(2 * m - 1), around.above.get(2 * m - 1)),
        b: gradient_of(k, slope_of(&e, m)),
        c: gradient_of(k, slope_of(&f, m)),
    }
}

// One term of H or V: w times the difference of two samples.
fn term(p: u8, q: u8, w: i32) -> i32
    requires { Within 8 w }
    ensures { (result ≡ w *ℤ (pos p -ℤ pos q)) × Within 4080 result }
{
    w * (i32::from(p) - i32::from(q))
}

// H or V, of a line of 2m + 1 samples.
fn slope_of(e: &[u8; 17], m: usize) -> i32
    requires { (1 ≤ m) × (m ≤ 8) }
    ensures { (result ≡ slope m (λ i. get_or e.now i 0)) × Within 32640 result }
{
    let mut h = 0;
    // i is a distance from the middle, to both sides, and the weight.
    for i in 0..m {
        h += term(e[m + 1 + i], e[m - 1 - i], (i + 1) as i32);
    }
    h
}

// b or c, of H or V.
fn gradient_of(k: u8, h: i32) -> i32
    requires { (k ≤ 34) × Within 32640 h }
    ensures { (result ≡ gradient k h) × Within 2219552 result }
{
    (i32::from(k) * h + 32) >> 6
}

// a, of the last samples of the two sides.
fn level_of(p: u8, q: u8) -> i32
    ensures { (result ≡ pos 16 *ℤ (pos p +ℤ pos q)) × Within 8160 result }
{
    16 * (i32::from(p) + i32::from(q))
}

// A column or a row, counted from o.
fn past(x: usize, o: usize) -> i32
    requires { (x < 16) × (o < 16) }
    ensures { (result ≡ pos x -ℤ pos o) × Within 30 result }
{
    x as i32 - o as i32
}

// v brought into sixteen bits.
fn hold(v: i32) -> i16
    ensures { result ≡ Min (Max v (minus 32768)) (pos 32767) }
{
    v.max(-32768).min(32767) as i16
}

// Clip1( v >> 5 ). What leaves sixteen bits is clipped either way, and in sixteen bits twice as many samples are shifted and clipped at once.
fn sample_of(v: i32) -> u8
    ensures { result ≡ Clip1 (shr_z v 32) }
{
    clip_u8(i32::from(hold(v) >> 5))
}

// A block of side n, column by column, from sums that step: by b from column to column along the row, and by c from row to row down a column. The
// columns' sums run side by side, and no sample takes a product.
#[inline(always)]
fn ramp_over(n: usize, o: usize, s: Levels, out: &mut [u8])
    requires { Within 8160 s.a × Within 2219552 s.b × Within 2219552 s.c × (o < 16) × (1 ≤ n) × (n ≤ 16) × (n * n ≤ length out.old) }
    ensures { out.new ≡ onto (n * n) (λ k. ramp o s.a s.b s.c (k % n) (k / n)) out.old }
{
    let mut rise = s.a + s.b * past(0, o);
    let lift = s.c * past(0, o) + 16;
    // x and y are a place: column by column takes half the time of rows in order.
    for x in 0..n {
        let mut at = rise + lift;
        for y in 0..n {
            out[y * n + x] = sample_of(at);
            at += s.c;
        }
        rise += s.b;
    }
}
