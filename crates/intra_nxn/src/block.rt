// Prediction of a block of side N: every row is a piece of a line, copied as a whole.
ghost use Rattle.std.specs.Prelude.{◌≡◌, ◌*◌, length};
ghost use Rattle.refusals.specs.Refusal.{number_of};
ghost use Rattle.laws.specs.Answer.{written};
ghost use Rattle.laws.specs.Table.{block_of};
ghost use Rattle.basics.specs.Marks.{permitted_nxn, pred_answer};
ghost use Rattle.basics.specs.Modes.{luma_mode};
ghost use Rattle.basics.specs.Near.{Near, near};
ghost use Rattle.intra_nxn.specs.IntraNxN.{pred_nxn};
ghost use Rattle.intra_nxn.specs.inner.Run.{Run, Even, pred_beside};

use super::rows::slide;
use super::run::Neighbours;
use basics::beside::Beside;
use basics::marks::{Sides, lists_answer};
use basics::modes::LumaMode;
use refusals::Refusal;

// The block of a mode from what stands beside it, put into lent memory. The neighbours of an 8x8 block are filtered first.
#[inline(always)]
pub(crate) fn pred_into<const N: usize>(
    mode: u8,
    beside: Beside,
    out: &mut [u8],
) -> Result<(), Refusal>
    requires { Even N }
    ensures answer { number_of result ≡ pred_answer N (2 * N) (length beside.entry.above.now) (length beside.entry.left.now) (length out.old)
        8 (permitted_nxn beside.entry.sides.above beside.entry.sides.left beside.entry.sides.corner) mode }
    ensures lent { out.new ≡ written (number_of result) out.old
        (block_of N (pred_beside N mode beside.entry.sides.above beside.entry.sides.left beside.entry.sides.corner
        (near beside.entry.above.now beside.entry.left.now beside.entry.corner))) }
{
    lists_answer(
        N as u8,
        2 * N,
        beside.above.len(),
        beside.left.len(),
        out.len(),
    )?;
    let mode = LumaMode::permitted(mode, beside.sides)?;
    let raw = Neighbours::<N>::of(beside);
    if N == 8 {
        raw.filtered(beside.sides).draw(mode, beside.sides, out);
    } else {
        raw.draw(mode, beside.sides, out);
    }
    Ok(())
}

impl<const N: usize> Neighbours<N> {
    // The block of a mode.
    #[inline(always)]
    fn draw(&self, mode: LumaMode, sides: Sides, out: &mut [u8])
        requires { length out.old ≡ N * N }
        ensures { (p : Near) → Run N p self.now.run → out.new ≡ block_of N (pred_nxn N (luma_mode mode) sides.above sides.left p) }
    {
        match mode {
            LumaMode::Vertical => slide::<N>(&self.run, 11, &self.run, 11, 0, 0, out),
            LumaMode::Horizontal => self.beside(out),
            LumaMode::Dc => out[..N * N].fill(self.dc(sides)),
            LumaMode::DiagonalDownLeft => {
                let line = self.along(10, 2 * N, true);
                slide::<N>(&line, 1, &line, 2, 2, 0, out);
            }
            LumaMode::DiagonalDownRight => {
                let line = self.along(10 - N, 2 * N, true);
                slide::<N>(&line, N - 1, &line, N - 2, 0, 2, out);
            }
            LumaMode::VerticalRight => {
                let even = self.right_line(12 - N, false);
                let odd = self.right_line(11 - N, true);
                slide::<N>(&even, N / 2 - 1, &odd, N / 2 - 1, 0, 1, out);
            }
            LumaMode::HorizontalDown => {
                let line = self.down_line();
                slide::<N>(&line, 2 * N - 2, &line, 2 * N - 4, 0, 4, out);
            }
            LumaMode::VerticalLeft => {
                let even = self.along(10, N + N / 2 - 1, false);
                let odd = self.along(11, N + N / 2 - 1, true);
                slide::<N>(&even, 0, &odd, 0, 1, 0, out);
            }
            LumaMode::HorizontalUp => {
                let line = self.up_line();
                slide::<N>(&line, 0, &line, 2, 4, 0, out);
            }
        }
    }
}
