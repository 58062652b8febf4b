// The rows of blocks of side 4 that stand one after the other, in raster order. Both go place by place: tried and slower with `copy_from_slice`, which may
// test for overlap.
ghost use Rattle.std.specs.Prelude.{◌≡◌, List, ℕ, ◌+◌, ◌*◌, ◌≤◌, ◌<◌, ℤ, length};
ghost use Rattle.laws.specs.Range.{at};
ghost use Rattle.laws.specs.Table.{table, onto};

// The numbers of row `i`.
pub(crate) fn row_of(l: &[i32], i: usize) -> [i32; 4]
    requires { 4 * i + 4 ≤ length l.now }
    ensures { result ≡ table 4 (λ j. at l.now (4 * i + j)) }
{
    let k = 4 * i;
    [l[k], l[k + 1], l[k + 2], l[k + 3]]
}

// Row `i` put anew.
pub(crate) fn put_row(l: &mut [i32], i: usize, v: [i32; 4])
    requires { 4 * i + 4 ≤ length l.old }
    ensures { (f : ℕ → ℤ) (old : List ℤ) → length old ≡ length l.old → ((j : ℕ) → j < 4 → at v j ≡ f (4 * i + j))
        → l.old ≡ onto (4 * i) f old → l.new ≡ onto (4 * i + 4) f old }
{
    let k = 4 * i;
    l[k] = v[0];
    l[k + 1] = v[1];
    l[k + 2] = v[2];
    l[k + 3] = v[3];
}
