// The two passes over 4x4 blocks that stand one after the other: all rows, then the columns of each block. The rows of several blocks are transformed in one
// loop, of which the compiled code takes four at a time, and so it does with the columns of a block.
ghost use Rattle.std.specs.Prelude.{◌≡◌, true, ◌&&◌, ◌++◌, ◌+◌, ◌*◌, ◌%◌, ◌≤◌, ◌<◌, length, drop};
ghost use Rattle.laws.specs.Range.{AllWithin, at};
ghost use Rattle.laws.specs.Table.{table};
ghost use Rattle.numbers.specs.Numbers.{all_in_range, all_of, last_in_range};
ghost use Rattle.residual.specs.Inverse.{one_dimensional, f_row};
ghost use Rattle.residual.specs.inner.Passes.{row_at, columns_of};

use super::rows::{put_row, row_of};
use numbers::reach::{with_last_list, with_list};

// The rows of a list, transformed, as many as `f` takes.
pub(crate) fn rows(d: &[i32], f: &mut [i32])
    requires { (length f.old ≤ length d.now) × (length f.old % 4 ≡ 0) × (all_in_range d.now ≡ true) }
    ensures { f.new ≡ table (length f.old) (row_at d.now) }
{
    // the number names the row in both lists
    for i in 0..f.len() / 4 {
        put_row(f, i, row(d, i));
    }
}

// Row `i` of a list, transformed.
fn row(d: &[i32], i: usize) -> [i32; 4]
    requires { (4 * i + 4 ≤ length d.now) × (all_in_range d.now ≡ true) }
    ensures { result ≡ f_row d.now i }
{
    one_dimensional(row_of(d, i))
}

// The columns of the first sixteen numbers of a list over the first sixteen places of `h`, transformed.
pub(crate) fn columns(f: &[i32], h: &mut [i32])
    requires { (16 ≤ length f.now) × (16 ≤ length h.old) × AllWithin 131072 f.now }
    ensures { h.new ≡ columns_of f.now ++ drop 16 h.old }
{
    let h0 = column(f, 0);
    let h1 = column(f, 1);
    let h2 = column(f, 2);
    let h3 = column(f, 3);
    // row i has number i of each of the four
    for i in 0..4 {
        put_row(h, i, [h0[i], h1[i], h2[i], h3[i]]);
    }
}

// Column `j`, transformed.
fn column(f: &[i32], j: usize) -> [i32; 4]
    requires { (16 ≤ length f.now) × AllWithin 131072 f.now × (j < 4) }
    ensures { result ≡ one_dimensional (λ i. at f.now (4 * i + j)) }
{
    one_dimensional([f[j], f[4 + j], f[8 + j], f[12 + j]])
}

// The one-dimensional transformation of four numbers.
fn one_dimensional(d: [i32; 4]) -> [i32; 4]
    requires { AllWithin 131072 d }
    ensures { result ≡ one_dimensional (at d) }
{
    let [d0, d1, d2, d3] = d;
    let e0 = d0 + d2;
    let e1 = d0 - d2;
    let e2 = (d1 >> 1) - d3;
    let e3 = d1 + (d3 >> 1);
    [e0 + e3, e1 + e2, e1 - e2, e0 - e3]
}

// Whether the values after each pass are in range. Where they are, so are those that they are made of.
pub(crate) fn values_in_range(f: &[i32], h: &[i32]) -> bool
    ensures { result ≡ (all_in_range f.now && all_of last_in_range h.now) }
{
    with_last_list(with_list(0, f), h) < 32768
}
