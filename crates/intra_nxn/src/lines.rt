// The lines whose windows are the rows of a block in the modes from 3 on: means of the run (clauses 8.3.1.2.4 to 8.3.1.2.9 and 8.3.2.2.5 to 8.3.2.2.10).
// Each mode makes its own, so that the compiled code takes few means that the mode does not show.
ghost use Rattle.std.specs.Prelude.{◌≡◌, cond, ◌+◌, ◌-◌, ◌*◌, ◌/◌, ◌≤◌, ltb, get_or};
ghost use Rattle.intra_nxn.specs.inner.Run.{Line, mean_round, mean_from, mean_in, pairs};

use super::run::Neighbours;

impl<const N: usize> Neighbours<N> {
    // The diagonals and Vertical left: along the run, from the given place on, the means of two, or of three, which the diagonals and odd rows take.
    #[inline(always)]
    pub(crate) fn along(&self, first: usize, count: usize, odd: bool) -> [u8; 32]
        requires { first + count ≤ 26 }
        ensures { Line count (λ j. mean_in odd self.now.run (first + j)) result }
    {
        let mut line = [0u8; 32];
        for (j, x) in line[..count].iter_mut().enumerate() {
            *x = self.mean_in(odd, first + j);
        }
        line
    }

    // Vertical right: every other mean of three along the left side from the given place on, then along the row above the means of two in even rows and
    // of three in odd ones.
    #[inline(always)]
    pub(crate) fn right_line(&self, first: usize, odd: bool) -> [u8; 32]
        requires { first + N ≤ 12 }
        ensures { Line (N / 2 - 1 + N) (λ j. cond (ltb j (N / 2 - 1)) (mean_round self.now.run (first + 2 * j))
            (mean_in odd self.now.run (10 - N / 2 + j))) result }
    {
        let mut line = [0u8; 32];
        let m = N / 2 - 1;
        for (j, x) in line[..m].iter_mut().enumerate() {
            *x = self.mean_round(first + 2 * j);
        }
        for (j, x) in line[m..m + N].iter_mut().enumerate() {
            *x = self.mean_in(odd, 9 + j);
        }
        line
    }

    // Horizontal down: the means of two and of three in turn up the left side, then those of three along the row above.
    #[inline(always)]
    pub(crate) fn down_line(&self) -> [u8; 32]
        ensures { Line (3 * N - 2) (pairs (2 * N) (λ i. mean_from self.now.run (9 - N + i)) (λ i. mean_round self.now.run (10 - N + i))
            (λ j. mean_round self.now.run (10 + j - 2 * N))) result }
    {
        let mut line = [0u8; 32];
        // A turn puts two places.
        for i in 0..N {
            line[2 * i] = self.mean_from(9 - N + i);
            line[2 * i + 1] = self.mean_round(10 - N + i);
        }
        for (j, x) in line[2 * N..3 * N - 2].iter_mut().enumerate() {
            *x = self.mean_round(10 + j);
        }
        line
    }

    // Horizontal up: the means of two and of three in turn down the left side, then its last sample.
    #[inline(always)]
    pub(crate) fn up_line(&self) -> [u8; 32]
        ensures { Line (3 * N - 2) (pairs (2 * N - 2) (λ i. mean_from self.now.run (7 - i)) (λ i. mean_round self.now.run (7 - i))
            (λ _. get_or self.now.run (10 - N) 0)) result }
    {
        let mut line = [self.run[10 - N]; 32];
        // A turn puts two places.
        for i in 0..N - 1 {
            line[2 * i] = self.mean_from(7 - i);
            line[2 * i + 1] = self.mean_round(7 - i);
        }
        line
    }
}
