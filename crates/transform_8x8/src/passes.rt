// The two passes over a block: eight rows, then eight columns. They look at their values as they go, and so are no other size of the 4x4 ones, which take the
// rows of many blocks in one loop and look afterwards.
ghost use Rattle.std.specs.Prelude.{◌≡◌, true, ◌&&◌, List, ◌++◌, ℕ, ◌+◌, ◌*◌, ◌≤◌, ◌<◌, ℤ, length, drop};
ghost use Rattle.laws.specs.Range.{AllWithin, at};
ghost use Rattle.laws.specs.Table.{table, onto, all_below};
ghost use Rattle.numbers.specs.Numbers.{in_range, all_in_range, all_of, held};
ghost use Rattle.residual.specs.Inverse.{rounded};
ghost use Rattle.transform_8x8.specs.Inverse8x8.{first_step, one_dimensional, e_row, g_row, inverse8x8, in_range8x8};
ghost use Rattle.transform_8x8.specs.inner.ByColumn.{ByColumn, row_at, column_at};
ghost use Rattle.transform_8x8.specs.inner.Told.{odd_of, column_in, row_told, column_told};

use super::rows::{put_row, round, row_of};
use super::steps::{Steps, one_dimensional};
use numbers::reach::{with_last_list, with_list};
use residual::blocks::Quad;

// The residuals of a quad, one block, over the first 64 places of `out`, and whether every value on the way is in range.
pub(crate) fn invert(quad: Quad, out: &mut [i16]) -> bool
    requires { 64 ≤ length out.old }
    ensures value { result ≡ in_range8x8 quad.entry.numbers.now }
    ensures out_after { out.new ≡ inverse8x8 quad.entry.numbers.now ++ drop 64 out.old }
{
    let mut g = [0i32; 64];
    let after_rows = rows(quad.numbers, &mut g);
    columns(&g, out, after_rows) < 32768
}

// The rows, transformed, and the reach of their values.
fn rows(d: &[i32], g: &mut [i32]) -> u32
    requires { (64 ≤ length d.now) × (all_in_range d.now ≡ true) × (length g.old ≡ 64) }
    ensures result_value { held result ≡ all_below 8 (row_told d.now) }
    ensures g_after { g.new ≡ table 64 (row_at d.now) }
{
    let mut reach: u32 = 0;
    // the number names the row in both lists
    for i in 0..8 {
        let Steps { e, g: last } = row(d, i);
        put_row(g, i, last);
        reach = with_odd(reach, e);
    }
    reach
}

// Row `i` of the coefficients, transformed.
fn row(d: &[i32], i: usize) -> Steps
    requires { (64 ≤ length d.now) × (all_in_range d.now ≡ true) × (i < 8) }
    ensures { (result.e ≡ e_row d.now i) × (result.g ≡ g_row d.now i) }
{
    one_dimensional(row_of(d, i))
}

// The columns of the transformed rows, transformed and rounded, and the reach with their values.
fn columns(g: &[i32], out: &mut [i16], x: u32) -> u32
    requires { (length g.now ≡ 64) × AllWithin 241664 g.now × (64 ≤ length out.old) }
    ensures result_value { held result ≡ (held x && all_below 8 (column_told g.now)) }
    ensures out_after { out.new ≡ onto 64 (column_at g.now) out.old }
{
    let mut reach = x;
    // the number names the column in both lists
    for j in 0..8 {
        let Steps { e, g: last } = column(g, j);
        put_column(out, j, last);
        reach = with_last_list(with_odd(with_column(reach, g, j), e), &last);
    }
    reach
}

// Column `j`, transformed.
fn column(g: &[i32], j: usize) -> Steps
    requires { (length g.now ≡ 64) × AllWithin 241664 g.now × (j < 8) }
    ensures e_value { result.e ≡ first_step (λ i. at g.now (8 * i + j)) }
    ensures g_value { result.g ≡ one_dimensional (λ i. at g.now (8 * i + j)) }
{
    one_dimensional(column_of(g, j))
}

// The numbers of column `j`.
fn column_of(g: &[i32], j: usize) -> [i32; 8]
    requires { (64 ≤ length g.now) × (j < 8) }
    ensures { result ≡ table 8 (λ i. at g.now (8 * i + j)) }
{
    [
        g[j],
        g[8 + j],
        g[16 + j],
        g[24 + j],
        g[32 + j],
        g[40 + j],
        g[48 + j],
        g[56 + j],
    ]
}

// Column `j` of a block put from eight numbers, each rounded to a residual.
fn put_column(out: &mut [i16], j: usize, m: [i32; 8])
    requires { (64 ≤ length out.old) × (j < 8) × AllWithin 1782272 m }
    ensures { (f : ℕ → ℤ) (l : List ℤ) → ((i : ℕ) → i < 8 → rounded (at m i) ≡ f (8 * i + j))
        → ByColumn f l (8 * j) out.old → ByColumn f l (8 * j + 8) out.new }
{
    for (i, v) in m.iter().enumerate() {
        out[8 * i + j] = round(*v);
    }
}

// The reach with the values at the odd places of a first step. No later value tells of these; where the last ones of a pass are in range, so are all others.
fn with_odd(x: u32, e: [i32; 8]) -> u32
    ensures { held result ≡ (held x && all_of in_range (odd_of e)) }
{
    with_list(x, &[e[1], e[3], e[5], e[7]])
}

// The reach with column `j` of the transformed rows.
fn with_column(x: u32, g: &[i32], j: usize) -> u32
    requires { (length g.now ≡ 64) × (j < 8) }
    ensures { held result ≡ (held x && column_in g.now j) }
{
    with_list(x, &column_of(g, j))
}
