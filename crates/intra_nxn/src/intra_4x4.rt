// Intra 4x4 luma prediction (clause 8.3.1.2).
ghost use Rattle.std.specs.Prelude.{◌≡◌, IfOk, length};
ghost use Rattle.refusals.specs.Refusal.{number_of};
ghost use Rattle.laws.specs.Answer.{written};
ghost use Rattle.laws.specs.Table.{block_of};
ghost use Rattle.basics.specs.Marks.{permitted_nxn, mode_answer, pred_answer};
ghost use Rattle.basics.specs.Near.{near};
ghost use Rattle.intra_nxn.specs.IntraNxN.{pred4x4_l};

use super::block::pred_into;
use basics::beside::Beside;
use basics::marks::Sides;
use refusals::Refusal;

// The 4x4 block of a mode in raster order, from the marks and the samples of above, left and corner.
pub fn intra4x4_pred(
    mode: u8,
    sides: Sides,
    top: &[u8; 8],
    left: &[u8; 4],
    corner: u8,
) -> Result<[u8; 16], Refusal>
    ensures answer { number_of result ≡ mode_answer 8 (permitted_nxn sides.above sides.left sides.corner) mode }
    ensures block { IfOk result (λ b. b ≡ block_of 4 (pred4x4_l mode sides.above sides.left sides.corner (near top.now left.now corner))) }
{
    let mut block = [0u8; 16];
    let beside = Beside {
        sides,
        above: top,
        left,
        corner,
    };
    intra4x4_pred_into(mode, beside, &mut block)?;
    Ok(block)
}

// The same over lists, the block put into lent memory.
#[inline(always)]
pub fn intra4x4_pred_into(mode: u8, beside: Beside, out: &mut [u8]) -> Result<(), Refusal>
    ensures answer { number_of result ≡ pred_answer 4 8 (length beside.entry.above.now) (length beside.entry.left.now) (length out.old)
        8 (permitted_nxn beside.entry.sides.above beside.entry.sides.left beside.entry.sides.corner) mode }
    ensures lent { out.new ≡ written (number_of result) out.old
        (block_of 4 (pred4x4_l mode beside.entry.sides.above beside.entry.sides.left beside.entry.sides.corner
        (near beside.entry.above.now beside.entry.left.now beside.entry.corner))) }
{
    pred_into::<4>(mode, beside, out)
}
