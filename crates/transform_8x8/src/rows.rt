// The rows of a block, and the last step of a transform. `residual` has the same for its own blocks: each asks something of its callers, and a public function
// asks nothing.
ghost use Rattle.std.specs.Prelude.{◌≡◌, List, ℕ, ◌+◌, ◌*◌, ◌≤◌, ◌<◌, ℤ, length};
ghost use Rattle.laws.specs.Range.{Within, at};
ghost use Rattle.laws.specs.Table.{table, onto};
ghost use Rattle.residual.specs.Inverse.{rounded};

// The numbers of row `i`. Both go place by place: with `copy_from_slice` a block takes half as long again.
pub(crate) fn row_of(l: &[i32], i: usize) -> [i32; 8]
    requires { 8 * i + 8 ≤ length l.now }
    ensures { result ≡ table 8 (λ j. at l.now (8 * i + j)) }
{
    let k = 8 * i;
    [
        l[k],
        l[k + 1],
        l[k + 2],
        l[k + 3],
        l[k + 4],
        l[k + 5],
        l[k + 6],
        l[k + 7],
    ]
}

// Row `i` of a block put anew.
pub(crate) fn put_row(g: &mut [i32], i: usize, v: [i32; 8])
    requires { (length g.old ≡ 64) × (i < 8) }
    ensures { (f : ℕ → ℤ) (l : List ℤ) → length l ≡ 64 → ((j : ℕ) → j < 8 → at v j ≡ f (8 * i + j))
        → g.old ≡ onto (8 * i) f l → g.new ≡ onto (8 * i + 8) f l }
{
    for j in 0..8 {
        g[8 * i + j] = v[j];
    }
}

// A number of the second pass, rounded to a residual.
pub(crate) fn round(h: i32) -> i16
    requires { Within 1782272 h }
    ensures { result ≡ rounded h }
{
    ((h + 32) >> 6) as i16
}
