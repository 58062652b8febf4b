// The filter of an 8x8 block's neighbours (clause 8.3.2.2.1), from run to run.
ghost use Rattle.std.specs.Prelude.{◌≡◌, cond, get_or};
ghost use Rattle.basics.specs.Near.{Near};
ghost use Rattle.intra_nxn.specs.IntraNxN.{mean3, filtered};
ghost use Rattle.intra_nxn.specs.inner.Run.{Run, Filtered};

use super::run::{Neighbours, mean3};
use basics::marks::Sides;

impl<const N: usize> Neighbours<N> {
    // The run of the filtered neighbours: the means of three, but next to the corner and at it, where a neighbour may be absent.
    #[inline(always)]
    pub(crate) fn filtered(&self, sides: Sides) -> Neighbours<N>
        requires { N ≡ 8 }
        ensures { (p : Near) → Run N p self.now.run → Run N (filtered N sides.above sides.left sides.corner p) result.run }
    {
        let e = &self.run;
        let mut run = self.means();
        run[9] = first_left(e, sides.corner);
        run[10] = at_corner(e, sides.above, sides.left);
        run[11] = first_above(e, sides.corner);
        Neighbours { run }
    }

    // The means of three all along the run, and at its ends those next to them once more.
    #[inline(always)]
    fn means(&self) -> [u8; 32]
        ensures { Filtered self.now.run result }
    {
        let mut run = [0u8; 32];
        for (i, x) in run[2..27].iter_mut().enumerate() {
            *x = self.mean_round(1 + i);
        }
        run[1] = run[2];
        run[27] = run[26];
        run
    }
}

fn first_left(e: &[u8; 32], corner: bool) -> u8
    ensures { result ≡ mean3 (get_or e.now 8 0) (get_or e.now 9 0)
        (cond corner (get_or e.now 10 0) (get_or e.now 9 0)) }
{
    mean3(e[8], e[9], if corner { e[10] } else { e[9] })
}

fn at_corner(e: &[u8; 32], above: bool, left: bool) -> u8
    ensures { result ≡ mean3 (cond left (get_or e.now 9 0) (get_or e.now 10 0)) (get_or e.now 10 0)
        (cond above (get_or e.now 11 0) (get_or e.now 10 0)) }
{
    let from_left = if left { e[9] } else { e[10] };
    let from_above = if above { e[11] } else { e[10] };
    mean3(from_left, e[10], from_above)
}

fn first_above(e: &[u8; 32], corner: bool) -> u8
    ensures { result ≡ mean3 (cond corner (get_or e.now 10 0) (get_or e.now 11 0)) (get_or e.now 11 0)
        (get_or e.now 12 0) }
{
    mean3(if corner { e[10] } else { e[11] }, e[11], e[12])
}
