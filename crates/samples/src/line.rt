// Lines of samples beside a block: read, summed, and copied over a block.
ghost use Rattle.std.specs.Prelude.{◌≡◌, ◌+◌, ◌*◌, ◌/◌, ◌%◌, ◌≤◌, ◌<◌, length, get_or, replicate};
ghost use Rattle.laws.specs.Table.{table, sum_of, onto};
ghost use Rattle.samples.specs.inner.Line.{sample, Reaches, line, lists};

use basics::beside::Beside;
use basics::marks::Sides;

// The samples of a list from `at` on, `stride` apart.
#[derive(Clone, Copy)]
pub(crate) struct Line<'a> {
    pub samples: &'a [u8],
    pub at: usize,
    pub stride: usize,
}

// What stands beside a block: which of its sides are there, the lines above and left, and the corner.
#[derive(Clone, Copy)]
pub(crate) struct Around<'a> {
    pub sides: Sides,
    pub above: Line<'a>,
    pub left: Line<'a>,
    pub corner: u8,
}

impl<'a> From<Beside<'a>> for Around<'a> {
    ghost from_gives = { λ b a. a ≡ lists b };

    fn from(b: Beside<'a>) -> Around<'a> {
        Around {
            sides: b.sides,
            above: Line {
                samples: b.above,
                at: 0,
                stride: 1,
            },
            left: Line {
                samples: b.left,
                at: 0,
                stride: 1,
            },
            corner: b.corner,
        }
    }
}

impl<'a> Line<'a> {
    // Sample i.
    pub(crate) fn get(self, i: usize) -> u8
        requires { self.at + i * self.stride < length self.samples.now }
        ensures { result ≡ sample self.entry i }
    {
        self.samples[self.at + i * self.stride]
    }

    // The first N samples, in an array of their own.
    pub(crate) fn first<const N: usize>(self) -> [u8; N]
        requires { Reaches N self }
        ensures { result ≡ table N (sample self.entry) }
    {
        let mut f = [0u8; N];
        // i is a place of the array and a step along the line.
        for i in 0..N {
            f[i] = self.get(i);
        }
        f
    }

    // The sum of the n samples from number `from` on.
    pub(crate) fn sum(self, from: usize, n: usize) -> u32
        requires { (n ≤ 16) × (from ≤ 16) × Reaches (from + n) self }
        ensures { (result ≡ sum_of n (λ i. sample self.entry (from + i))) × (result ≤ 255 * n) }
    {
        let mut s = 0;
        // i is a step along the line.
        for i in 0..n {
            s += u32::from(self.get(from + i));
        }
        s
    }
}

// The corner and the n samples of a side.
pub(crate) fn line_of(n: usize, corner: u8, side: Line) -> [u8; 17]
    requires { (n ≤ 16) × Reaches n side }
    ensures { result ≡ onto (n + 1) (line corner (sample side.entry)) (replicate 17 0) }
{
    let mut e = [0u8; 17];
    e[0] = corner;
    // i is a place of the array and a step along the line.
    for i in 0..n {
        e[i + 1] = side.get(i);
    }
    e
}

// A block of side N, each row of which is the line above it.
pub(crate) fn down<const N: usize>(top: Line, out: &mut [u8])
    requires { (1 ≤ N) × (N ≤ 16) × Reaches N top × (N * N ≤ length out.old) }
    ensures { out.new ≡ onto (N * N) (λ k. sample top.entry (k % N)) out.old }
{
    let row: [u8; N] = top.first();
    // y is the row's number, from which its place follows.
    for y in 0..N {
        put_row(&row, &mut out[y * N..y * N + N]);
    }
}

// A row of a block, sample by sample: rows of eight that are copied as lists are stored one by one and not two at a time, and the block takes a tenth longer.
fn put_row<const N: usize>(row: &[u8; N], out: &mut [u8])
    requires { N ≤ length out.old }
    ensures { out.new ≡ onto N (λ k. get_or row.now k 0) out.old }
{
    // k is a place of both.
    for k in 0..N {
        out[k] = row[k];
    }
}

// A block of side N, each row of which is its sample to the left.
pub(crate) fn across<const N: usize>(left: Line, out: &mut [u8])
    requires { (1 ≤ N) × (N ≤ 16) × Reaches N left × (N * N ≤ length out.old) }
    ensures { out.new ≡ onto (N * N) (λ k. sample left.entry (k / N)) out.old }
{
    // y is the row's number, from which its place and its sample follow.
    for y in 0..N {
        out[y * N..y * N + N].fill(left.get(y));
    }
}
