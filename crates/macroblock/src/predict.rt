// The predictions of blocks from the samples beside them in a plane (clauses 8.3.1 to 8.3.4), put into lent memory.
ghost use Rattle.std.specs.Prelude.{◌≡◌, Bool, ℕ, ◌*◌, ◌≤◌, length};
ghost use Rattle.laws.specs.Answer.{written};
ghost use Rattle.laws.specs.Table.{block_of};
ghost use Rattle.refusals.specs.Refusal.{number_of};
ghost use Rattle.basics.specs.Near.{Near, near};
ghost use Rattle.basics.specs.Marks.{permitted_nxn, permitted16x16, permitted_chroma, mode_answer, pred_answer};
ghost use Rattle.samples.specs.Intra16x16.{pred_l};
ghost use Rattle.samples.specs.IntraChroma.{pred_c};
ghost use Rattle.intra_nxn.specs.IntraNxN.{pred4x4_l, pred8x8_l};
ghost use Rattle.macroblock.specs.Square.{near_block};
ghost use Rattle.macroblock.specs.inner.Blocks.{StandsIn};

use super::beside::read_beside;
use super::place::Place;
use basics::beside::Beside;
use basics::marks::Sides;
use intra_nxn::intra_4x4::intra4x4_pred_into;
use intra_nxn::intra_8x8::intra8x8_pred_into;
use refusals::Refusal;
use samples::intra_16x16::luma16x16_pred_into;
use samples::intra_chroma::chroma8x8_pred_into;

// A predictor of blocks of side Q from W samples above them: the last of its modes, those that it permits, and what it draws.
pub(crate) trait Draws<const Q: usize, const W: usize> {
    ghost last: { ℕ };

    ghost permits: { Bool → Bool → Bool → ℕ → Bool };

    ghost drawn: { ℕ → Bool → Bool → Bool → Near → ℕ → ℕ → ℕ };

    fn predict_into(mode: u8, beside: Beside, out: &mut [u8]) -> Result<(), Refusal>
        ensures answer { number_of result ≡ pred_answer Q W (length beside.entry.above.now) (length beside.entry.left.now)
            (length out.old) last (permits beside.entry.sides.above beside.entry.sides.left beside.entry.sides.corner) mode }
        ensures lent { out.new ≡ written (number_of result) out.old (block_of Q
            (drawn mode beside.entry.sides.above beside.entry.sides.left beside.entry.sides.corner
            (near beside.entry.above.now beside.entry.left.now beside.entry.corner))) };
}

pub(crate) struct Luma4x4;

impl Draws<4, 8> for Luma4x4 {
    ghost last = { 8 };

    ghost permits = { permitted_nxn };

    ghost drawn = { pred4x4_l };

    fn predict_into(mode: u8, beside: Beside, out: &mut [u8]) -> Result<(), Refusal> {
        intra4x4_pred_into(mode, beside, out)
    }
}

pub(crate) struct Luma8x8;

impl Draws<8, 16> for Luma8x8 {
    ghost last = { 8 };

    ghost permits = { permitted_nxn };

    ghost drawn = { pred8x8_l };

    // a call of its own: where it is inlined the samples above are taken apart into single bytes, which is slower
    #[inline(never)]
    fn predict_into(mode: u8, beside: Beside, out: &mut [u8]) -> Result<(), Refusal> {
        intra8x8_pred_into(mode, beside, out)
    }
}

pub(crate) struct Luma16x16;

impl Draws<16, 16> for Luma16x16 {
    ghost last = { 3 };

    ghost permits = { permitted16x16 };

    ghost drawn = { λ mode above left _. pred_l mode above left };

    fn predict_into(mode: u8, beside: Beside, out: &mut [u8]) -> Result<(), Refusal> {
        luma16x16_pred_into(mode, beside, out)
    }
}

pub(crate) struct Chroma8x8;

impl Draws<8, 8> for Chroma8x8 {
    ghost last = { 3 };

    ghost permits = { permitted_chroma };

    ghost drawn = { λ mode above left _. pred_c mode above left };

    fn predict_into(mode: u8, beside: Beside, out: &mut [u8]) -> Result<(), Refusal> {
        chroma8x8_pred_into(mode, beside, out)
    }
}

// The prediction of a block by a mode that is permitted where it stands, and so not refused.
#[inline(always)]
pub(crate) fn predict<const Q: usize, const W: usize, P: Draws<Q, W>>(
    plane: &[u8],
    place: Place,
    sides: Sides,
    mode: u8,
    pred: &mut [u8],
)
    requires wide { (Q ≤ W) × (W ≤ 2 * Q) }
    requires pred_len { length pred.old ≡ Q * Q }
    requires stands_in { StandsIn Q place (length plane.now) sides }
    requires mode_value { mode_answer P.last (P.permits sides.above sides.left sides.corner) mode ≡ 0 }
    ensures { pred.new ≡ block_of Q (P.drawn mode sides.above sides.left sides.corner (near_block Q place plane.now sides W)) }
{
    let mut above = [0u8; W];
    let mut left = [0u8; Q];
    let corner = read_beside::<Q, W>(plane, place, sides, &mut above, &mut left);
    let beside = Beside {
        sides,
        above: &above,
        left: &left,
        corner,
    };
    let _ = P::predict_into(mode, beside, pred);
}
