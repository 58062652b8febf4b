// The run of a block's neighbours, over the side N, with DC and the two means.
ghost use Rattle.std.specs.Prelude.{◌≡◌, ◌*◌, ◌≤◌, ◌<◌, length};
ghost use Rattle.basics.specs.Near.{Near, near, dc};
ghost use Rattle.intra_nxn.specs.IntraNxN.{mean2, mean3};
ghost use Rattle.intra_nxn.specs.inner.Run.{Run, Even, mean_round, mean_from, mean_in};

use basics::beside::Beside;
use basics::marks::Sides;
use basics::mean::mean_of;

// The neighbours of a block of side N in one run: the corner at 10, above to the right of it, left to the left of it, and the last sample of either
// side once more.
#[derive(Drop)]
pub(crate) struct Neighbours<const N: usize> {
    pub(crate) run: [u8; 32],
    ghost even: { Even N },
}

impl<const N: usize> Neighbours<N> {
    #[inline(always)]
    pub(crate) fn of(beside: Beside) -> Neighbours<N>
        requires { Even N × (length beside.above.now ≡ 2 * N) × (length beside.left.now ≡ N) }
        ensures { Run N (near beside.entry.above.now beside.entry.left.now beside.entry.corner) result.run }
    {
        // Lent on by their lengths, which the compiled code then knows.
        let above = &beside.above[..2 * N];
        let left = &beside.left[..N];
        let mut run = [0u8; 32];
        for (k, x) in left.iter().enumerate() {
            run[9 - k] = *x;
        }
        for (k, x) in above.iter().enumerate() {
            run[11 + k] = *x;
        }
        run[9 - N] = left[N - 1];
        run[10] = beside.corner;
        run[11 + 2 * N] = above[2 * N - 1];
        Neighbours { run }
    }

    // The one sample of DC.
    #[inline(always)]
    pub(crate) fn dc(&self, sides: Sides) -> u8
        ensures { (p : Near) → Run N p self.now.run → result ≡ dc N sides.above sides.left p }
    {
        let mut sum_above = 0;
        let mut sum_left = 0;
        // The index runs up one side and down the other.
        for i in 0..N {
            sum_above += u32::from(self.run[11 + i]);
            sum_left += u32::from(self.run[9 - i]);
        }
        mean_of(N as u32, sides.above, sides.left, sum_above, sum_left)
    }

    // The mean that an even or an odd row takes at place 1 + k, the mean of three round it, and that of two from it on.
    pub(crate) fn mean_in(&self, odd: bool, k: usize) -> u8
        requires { k < 26 }
        ensures { result ≡ mean_in odd self.now.run k }
    {
        if odd {
            self.mean_round(k)
        } else {
            self.mean_from(k)
        }
    }

    pub(crate) fn mean_round(&self, k: usize) -> u8
        requires { k < 26 }
        ensures { result ≡ mean_round self.now.run k }
    {
        mean3(self.run[k], self.run[1 + k], self.run[2 + k])
    }

    pub(crate) fn mean_from(&self, k: usize) -> u8
        requires { k < 26 }
        ensures { result ≡ mean_from self.now.run k }
    {
        mean2(self.run[1 + k], self.run[2 + k])
    }
}

// The rounded means of two and of three samples.
fn mean2(a: u8, b: u8) -> u8
    ensures { result ≡ mean2 a b }
{
    ((u32::from(a) + u32::from(b) + 1) >> 1) as u8
}

pub(crate) fn mean3(a: u8, b: u8, c: u8) -> u8
    ensures { result ≡ mean3 a b c }
{
    ((u32::from(a) + 2 * u32::from(b) + u32::from(c) + 2) >> 2) as u8
}
