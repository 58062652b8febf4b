// The rows of a block of side N: pieces of lines, or one sample all along.
ghost use Rattle.std.specs.Prelude.{◌≡◌, ◌+◌, ◌-◌, ◌*◌, ◌/◌, ◌%◌, ◌≤◌, length, get_or};
ghost use Rattle.laws.specs.Table.{onto};
ghost use Rattle.intra_nxn.specs.inner.Run.{Even, slid};

use super::run::Neighbours;

// All rows, each a window of a line: row 2z is of `even` and row 2z + 1 of `odd`. The first two start at a and b, and each two after them `up` places
// further on or `back` places back.
#[inline(always)]
pub(crate) fn slide<const N: usize>(
    even: &[u8; 32],
    a: usize,
    odd: &[u8; 32],
    b: usize,
    up: usize,
    back: usize,
    out: &mut [u8],
)
    requires even { Even N × (N * N ≤ length out.old) }
    requires n_bound { (back * (N / 2 - 1) ≤ a) × (back * (N / 2 - 1) ≤ b) × (a + up * (N / 2 - 1) + N ≤ 32) × (b + up * (N / 2 - 1) + N ≤ 32) }
    ensures { out.new
        ≡ onto (N * N) (λ k. slid even.now a odd.now b up back (k % N) (k / N)) out.old }
{
    // A turn takes a row of each line, at places that its number gives.
    for z in 0..N / 2 {
        let row = 2 * z;
        window::<N>(even, moved::<N>(a, up, back, z), &mut out[row * N..]);
        window::<N>(odd, moved::<N>(b, up, back, z), &mut out[(row + 1) * N..]);
    }
}

fn moved<const N: usize>(at: usize, up: usize, back: usize, z: usize) -> usize
    requires { (z ≤ N / 2 - 1) × (back * (N / 2 - 1) ≤ at) × (at + up * (N / 2 - 1) + N ≤ 32) }
    ensures { (result ≡ at + up * z - back * z) × (result + N ≤ 32) }
{
    at + up * z - back * z
}

// A row's samples, from `at` of a line on.
fn window<const N: usize>(line: &[u8; 32], at: usize, row: &mut [u8])
    requires { (at + N ≤ 32) × (N ≤ length row.old) }
    ensures { row.new ≡ onto N (λ i. get_or line.now (at + i) 0) row.old }
{
    for (i, x) in line[at..at + N].iter().enumerate() {
        row[i] = *x;
    }
}

impl<const N: usize> Neighbours<N> {
    // All rows, each its sample to the left.
    #[inline(always)]
    pub(crate) fn beside(&self, out: &mut [u8])
        requires { N * N ≤ length out.old }
        ensures { out.new ≡ onto (N * N) (λ k. get_or self.now.run (9 - k / N) 0) out.old }
    {
        // A row's number says where its sample and its place stand.
        for y in 0..N {
            out[y * N..y * N + N].fill(self.run[9 - y]);
        }
    }
}
