// Intra prediction from samples that are handed as lists (clause 8.3).
ghost use Rattle.std.specs.Prelude.{◌≡◌, [], ◌∷◌, length};
ghost use Rattle.laws.specs.Answer.{◌unless◌, answer, written};
ghost use Rattle.laws.specs.Table.{block_of};
ghost use Rattle.refusals.specs.Refusal.{number_of};
ghost use Rattle.samples.specs.Intra16x16.{pred_l};
ghost use Rattle.samples.specs.IntraChroma.{chroma_dc, pred_c};
ghost use Rattle.intra_nxn.specs.IntraNxN.{pred4x4_l, pred8x8_l};
ghost use Rattle.basics.specs.Marks.{permitted_nxn, permitted16x16, permitted_chroma, pred_answer};
ghost use Rattle.basics.specs.Near.{near, dc};
ghost use Rattle.turned.specs.Exchange.{Any, Level};
ghost use Rattle.turned.specs.TurnedBlock.{TurnedBlock};
ghost use Rattle.jiwarbend.specs.Exports.{◌has◌};

use super::sides::three;
use basics::beside::Beside;
use refusals::Refusal;

// A case turned on its side gets, in the mode's partner, the same answer and the transposed block.
pub fn jiwarbend_intra4x4_pred(
    mode: u8,
    avail_top: bool,
    avail_left: bool,
    avail_corner: bool,
    top: &[u8],
    left: &[u8],
    corner: u8,
    out: &mut [u8],
) -> Result<(), Refusal>
    ensures value { number_of result ≡ pred_answer 4 8 (length top.now) (length left.now) (length out.old)
        8 (permitted_nxn avail_top avail_left avail_corner) mode }
    ensures out_after { out.new ≡ written (number_of result) out.old
        (block_of 4 (pred4x4_l mode avail_top avail_left avail_corner (near top.now left.now corner))) }
    ensures turned_block { TurnedBlock 4 pred4x4_l Any }
{
    let beside = Beside {
        sides: three(avail_top, avail_left, avail_corner),
        above: top,
        left,
        corner,
    };
    intra_nxn::intra_4x4::intra4x4_pred_into(mode, beside, out)
}

// The same for 8x8, where above sample 8 equals above sample 7 before the exchange and after it.
pub fn jiwarbend_intra8x8_pred(
    mode: u8,
    avail_top: bool,
    avail_left: bool,
    avail_corner: bool,
    top: &[u8],
    left: &[u8],
    corner: u8,
    out: &mut [u8],
) -> Result<(), Refusal>
    ensures value { number_of result ≡ pred_answer 8 16 (length top.now) (length left.now) (length out.old)
        8 (permitted_nxn avail_top avail_left avail_corner) mode }
    ensures out_after { out.new ≡ written (number_of result) out.old
        (block_of 8 (pred8x8_l mode avail_top avail_left avail_corner (near top.now left.now corner))) }
    ensures turned_block { TurnedBlock 8 pred8x8_l (Level 8) }
{
    let beside = Beside {
        sides: three(avail_top, avail_left, avail_corner),
        above: top,
        left,
        corner,
    };
    intra_nxn::intra_8x8::intra8x8_pred_into(mode, beside, out)
}

pub fn jiwarbend_luma16x16_pred(
    mode: u8,
    avail_top: bool,
    avail_left: bool,
    avail_corner: bool,
    top: &[u8],
    left: &[u8],
    corner: u8,
    out: &mut [u8],
) -> Result<(), Refusal>
    ensures value { number_of result ≡ pred_answer 16 16 (length top.now) (length left.now) (length out.old)
        3 (permitted16x16 avail_top avail_left avail_corner) mode }
    ensures out_after { out.new ≡ written (number_of result) out.old
        (block_of 16 (pred_l mode avail_top avail_left (near top.now left.now corner))) }
{
    let beside = Beside {
        sides: three(avail_top, avail_left, avail_corner),
        above: top,
        left,
        corner,
    };
    samples::intra_16x16::luma16x16_pred_into(mode, beside, out)
}

pub fn jiwarbend_chroma8x8_pred(
    mode: u8,
    avail_top: bool,
    avail_left: bool,
    avail_corner: bool,
    top: &[u8],
    left: &[u8],
    corner: u8,
    out: &mut [u8],
) -> Result<(), Refusal>
    ensures value { number_of result ≡ pred_answer 8 8 (length top.now) (length left.now) (length out.old)
        3 (permitted_chroma avail_top avail_left avail_corner) mode }
    ensures out_after { out.new ≡ written (number_of result) out.old
        (block_of 8 (pred_c mode avail_top avail_left (near top.now left.now corner))) }
{
    let beside = Beside {
        sides: three(avail_top, avail_left, avail_corner),
        above: top,
        left,
        corner,
    };
    samples::intra_chroma::chroma8x8_pred_into(mode, beside, out)
}

pub fn jiwarbend_luma16x16_dc(
    avail_top: bool,
    avail_left: bool,
    top: &[u8],
    left: &[u8],
    out: &mut [u8],
) -> Result<(), Refusal>
    ensures value { number_of result ≡ answer (2 unless top.now has 16 ∷ 2 unless left.now has 16 ∷ 2 unless out.old has 1 ∷ []) }
    ensures out_after { out.new ≡ written (number_of result) out.old (dc 16 avail_top avail_left (near top.now left.now 0) ∷ []) }
{
    let beside = Beside {
        sides: three(avail_top, avail_left, false),
        above: top,
        left,
        corner: 0,
    };
    samples::intra_16x16::luma16x16_dc(beside, out)
}

pub fn jiwarbend_chroma8x8_dc(
    avail_top: bool,
    avail_left: bool,
    top: &[u8],
    left: &[u8],
    out: &mut [u8],
) -> Result<(), Refusal>
    ensures value { number_of result ≡ answer (2 unless top.now has 8 ∷ 2 unless left.now has 8 ∷ 2 unless out.old has 64 ∷ []) }
    ensures out_after { out.new ≡ written (number_of result) out.old
        (block_of 8 (chroma_dc avail_top avail_left (near top.now left.now 0))) }
{
    let beside = Beside {
        sides: three(avail_top, avail_left, false),
        above: top,
        left,
        corner: 0,
    };
    samples::intra_chroma::chroma8x8_pred_into(0, beside, out)
}
