// Intra 8x8 luma prediction (clause 8.3.2.2).
ghost use Rattle.std.specs.Prelude.{◌≡◌, IfOk, length};
ghost use Rattle.refusals.specs.Refusal.{number_of};
ghost use Rattle.laws.specs.Answer.{written};
ghost use Rattle.laws.specs.Table.{block_of};
ghost use Rattle.basics.specs.Marks.{permitted_nxn, mode_answer, pred_answer};
ghost use Rattle.basics.specs.Near.{near};
ghost use Rattle.intra_nxn.specs.IntraNxN.{pred8x8_l};

use super::block::pred_into;
use basics::beside::Beside;
use basics::marks::Sides;
use refusals::Refusal;

// The 8x8 block of a mode in raster order, from the marks and the samples of above, left and corner, which are filtered first.
pub fn intra8x8_pred(
    mode: u8,
    sides: Sides,
    top: &[u8; 16],
    left: &[u8; 8],
    corner: u8,
) -> Result<[u8; 64], Refusal>
    ensures answer { number_of result ≡ mode_answer 8 (permitted_nxn sides.above sides.left sides.corner) mode }
    ensures block { IfOk result (λ b. b ≡ block_of 8 (pred8x8_l mode sides.above sides.left sides.corner (near top.now left.now corner))) }
{
    let mut block = [0u8; 64];
    let beside = Beside {
        sides,
        above: top,
        left,
        corner,
    };
    intra8x8_pred_into(mode, beside, &mut block)?;
    Ok(block)
}

// The same over lists, the block put into lent memory.
#[inline(always)]
pub fn intra8x8_pred_into(mode: u8, beside: Beside, out: &mut [u8]) -> Result<(), Refusal>
    ensures answer { number_of result ≡ pred_answer 8 16 (length beside.entry.above.now) (length beside.entry.left.now) (length out.old)
        8 (permitted_nxn beside.entry.sides.above beside.entry.sides.left beside.entry.sides.corner) mode }
    ensures lent { out.new ≡ written (number_of result) out.old
        (block_of 8 (pred8x8_l mode beside.entry.sides.above beside.entry.sides.left beside.entry.sides.corner
        (near beside.entry.above.now beside.entry.left.now beside.entry.corner))) }
{
    pred_into::<8>(mode, beside, out)
}
