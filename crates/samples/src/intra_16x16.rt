// Intra 16x16 luma prediction (clause 8.3.3): 0 vertical, 1 horizontal, 2 DC, 3 plane.
ghost use Rattle.std.specs.Prelude.{◌≡◌, [], ◌∷◌, eqb, length, IfOk};
ghost use Rattle.laws.specs.Answer.{◌unless◌, answer, written};
ghost use Rattle.laws.specs.Table.{block_of};
ghost use Rattle.refusals.specs.Refusal.{number_of};
ghost use Rattle.basics.specs.Marks.{permitted16x16, mode_answer, pred_answer};
ghost use Rattle.basics.specs.Modes.{luma16x16_mode};
ghost use Rattle.basics.specs.Near.{Near, near, dc};
ghost use Rattle.samples.specs.Intra16x16.{pred_l};
ghost use Rattle.samples.specs.inner.Line.{Round, Stands};

use super::line::{Around, across, down};
use super::plane_mode::plane_over;
use super::whole::{Whole, pred, pred_into};
use basics::beside::Beside;
use basics::marks::Sides;
use basics::mean::mean_of;
use basics::modes::Luma16x16Mode;
use refusals::Refusal;

// The one sample of DC, from the marks of above and left and their samples, put into lent memory.
pub fn luma16x16_dc(beside: Beside, out: &mut [u8]) -> Result<(), Refusal>
    ensures value { number_of result ≡ answer
        (2 unless eqb (length beside.entry.above.now) 16 ∷ 2 unless eqb (length beside.entry.left.now) 16 ∷ 2 unless eqb (length out.old) 1 ∷ []) }
    ensures out_after { out.new ≡ written (number_of result) out.old
        (dc 16 beside.entry.sides.above beside.entry.sides.left (near beside.entry.above.now beside.entry.left.now 0) ∷ []) }
{
    if beside.above.len() != 16 || beside.left.len() != 16 || out.len() != 1 {
        return Err(Refusal::Room);
    }
    out[0] = dc_16x16(Around::from(beside));
    Ok(())
}

// The block of a mode, from the marks, the row above, the column to the left and the sample at the corner.
pub fn luma16x16_pred(
    mode: u8,
    sides: Sides,
    top: &[u8; 16],
    left: &[u8; 16],
    corner: u8,
) -> Result<[u8; 256], Refusal>
    ensures answer { number_of result ≡ mode_answer 3 (permitted16x16 sides.above sides.left sides.corner) mode }
    ensures block { IfOk result (λ b. b ≡ block_of 16 (pred_l mode sides.above sides.left (near top.now left.now corner))) }
{
    pred::<Luma16x16Mode, 256>(mode, sides, top, left, corner)
}

// The same over lists, the block put into lent memory. Inlined, so that what stands beside the block stays in registers: a call of its own hands it on
// through memory, and takes 2 to 5 nanoseconds longer.
#[inline(always)]
pub fn luma16x16_pred_into(mode: u8, beside: Beside, out: &mut [u8]) -> Result<(), Refusal>
    ensures answer { number_of result ≡ pred_answer 16 16 (length beside.entry.above.now) (length beside.entry.left.now)
        (length out.old) 3 (permitted16x16 beside.entry.sides.above beside.entry.sides.left beside.entry.sides.corner) mode }
    ensures lent { out.new ≡ written (number_of result) out.old
        (block_of 16 (pred_l mode beside.entry.sides.above beside.entry.sides.left
        (near beside.entry.above.now beside.entry.left.now beside.entry.corner))) }
{
    pred_into::<Luma16x16Mode>(mode, beside, out)
}

impl Whole for Luma16x16Mode {
    ghost SIDE = { 16 };

    ghost number = { luma16x16_mode };

    ghost permits = { permitted16x16 };

    ghost predicted = { pred_l };

    const SIDE: u8 = 16;

    fn checked(mode: u8, sides: Sides) -> Result<Luma16x16Mode, Refusal> {
        Luma16x16Mode::permitted(mode, sides)
    }

    #[inline(always)]
    fn predict(self, around: Around, out: &mut [u8]) {
        match self {
            Luma16x16Mode::Vertical => down::<16>(around.above, out),
            Luma16x16Mode::Horizontal => across::<16>(around.left, out),
            Luma16x16Mode::Dc => out[..256].fill(dc_16x16(around)),
            Luma16x16Mode::Plane => plane_over(8, 5, around, out),
        }
    }
}

// DC, which does not read the corner. Each case adds up its own sides, left first: then the compiler adds sixteen samples at once.
#[inline(always)]
fn dc_16x16(around: Around) -> u8
    requires { Round 16 around }
    ensures { (p : Near) → Stands 16 around.entry p → result ≡ dc 16 around.entry.sides.above around.entry.sides.left p }
{
    match (around.sides.above, around.sides.left) {
        (true, true) => {
            let l = around.left.sum(0, 16);
            mean_of(16, true, true, around.above.sum(0, 16), l)
        }
        (true, false) => mean_of(16, true, false, around.above.sum(0, 16), 0),
        (false, true) => mean_of(16, false, true, 0, around.left.sum(0, 16)),
        (false, false) => 128,
    }
}
