// A block that is predicted as a whole, 16x16 luma or 8x8 chroma: its modes, and the calls that are the same for both.
ghost use Rattle.std.specs.Prelude.{◌≡◌, Bool, ◌++◌, ℕ, ◌*◌, ◌≤◌, length, drop, IfOk};
ghost use Rattle.laws.specs.Answer.{written};
ghost use Rattle.laws.specs.Table.{block_of};
ghost use Rattle.refusals.specs.Refusal.{number_of};
ghost use Rattle.basics.specs.Marks.{mode_answer, pred_answer};
ghost use Rattle.basics.specs.Near.{Near, near};
ghost use Rattle.samples.specs.inner.Line.{Round, Stands};

use super::line::Around;
use basics::beside::Beside;
use basics::marks::{Sides, lists_answer};
use refusals::Refusal;

// The modes of such a block: its side, the numbers of the modes, which of these the marks permit, and what each predicts.
pub(crate) trait Whole: Copy {
    ghost SIDE: { ℕ };

    ghost number: { Self → ℕ };

    ghost permits: { Bool → Bool → Bool → ℕ → Bool };

    ghost predicted: { ℕ → Bool → Bool → Near → ℕ → ℕ → ℕ };

    const SIDE: u8;

    // The mode of a number, where the marks permit it.
    fn checked(mode: u8, sides: Sides) -> Result<Self, Refusal>
        ensures answer { number_of result ≡ mode_answer 3 (permits sides.above sides.left sides.corner) mode }
        ensures mode { IfOk result (λ m. number m ≡ mode) };

    // The mode's block over the first bytes of `out`.
    fn predict(self, around: Around, out: &mut [u8])
        requires { Round SIDE around × (SIDE * SIDE ≤ length out.old) }
        ensures { (p : Near) → Stands SIDE around.entry p → around.entry.corner ≡ p 0 0
            → out.new ≡ block_of SIDE (predicted (number self) around.entry.sides.above around.entry.sides.left p) ++ drop (SIDE * SIDE) out.old };
}

// The block of a mode, from what stands beside it.
#[inline(always)]
pub(crate) fn pred<M: Whole, const LEN: usize>(
    mode: u8,
    sides: Sides,
    above: &[u8],
    left: &[u8],
    corner: u8,
) -> Result<[u8; LEN], Refusal>
    requires { (length above.now ≡ M.SIDE) × (length left.now ≡ M.SIDE) × (LEN ≡ M.SIDE * M.SIDE) }
    ensures answer { number_of result ≡ mode_answer 3 (M.permits sides.above sides.left sides.corner) mode }
    ensures block { IfOk result (λ b. b ≡ block_of M.SIDE (M.predicted mode sides.above sides.left (near above.now left.now corner))) }
{
    let mut block = [0u8; LEN];
    let beside = Beside {
        sides,
        above,
        left,
        corner,
    };
    pred_into::<M>(mode, beside, &mut block)?;
    Ok(block)
}

// The same over lists, the block put into lent memory.
#[inline(always)]
pub(crate) fn pred_into<M: Whole>(mode: u8, beside: Beside, out: &mut [u8]) -> Result<(), Refusal>
    ensures answer { number_of result ≡ pred_answer M.SIDE M.SIDE (length beside.entry.above.now) (length beside.entry.left.now)
        (length out.old) 3 (M.permits beside.entry.sides.above beside.entry.sides.left beside.entry.sides.corner) mode }
    ensures lent { out.new ≡ written (number_of result) out.old
        (block_of M.SIDE (M.predicted mode beside.entry.sides.above beside.entry.sides.left
        (near beside.entry.above.now beside.entry.left.now beside.entry.corner))) }
{
    let side = usize::from(M::SIDE);
    lists_answer(
        M::SIDE,
        side,
        beside.above.len(),
        beside.left.len(),
        out.len(),
    )?;
    let mode = M::checked(mode, beside.sides)?;
    mode.predict(Around::from(beside), out);
    Ok(())
}
