// Intra prediction for C, from samples that are handed as lists.
ghost use Rattle.std.specs.Prelude.{◌≡◌, [], ◌∷◌, length};
ghost use Rattle.laws.specs.Answer.{◌unless◌, answer, written};
ghost use Rattle.laws.specs.Table.{block_of};
ghost use Rattle.samples.specs.Intra16x16.{pred_l};
ghost use Rattle.samples.specs.IntraChroma.{chroma_dc, pred_c};
ghost use Rattle.intra_nxn.specs.IntraNxN.{pred4x4_l, pred8x8_l};
ghost use Rattle.basics.specs.Marks.{permitted_nxn, permitted16x16, permitted_chroma, pred_answer};
ghost use Rattle.basics.specs.Near.{near, dc};
ghost use Rattle.turned.specs.Exchange.{Any, Level};
ghost use Rattle.turned.specs.TurnedBlock.{TurnedBlock};
ghost use Rattle.jiwarbend.specs.Exports.{◌has◌};

use refusals::number_of;

#[unsafe(no_mangle)]
pub extern "C" fn jiwarbend_intra4x4_pred(
    mode: u8,
    avail_top: bool,
    avail_left: bool,
    avail_corner: bool,
    top: &[u8],
    left: &[u8],
    corner: u8,
    out: &mut [u8],
) -> u32
    ensures value { result ≡ pred_answer 4 8 (length top.now) (length left.now) (length out.old)
        8 (permitted_nxn avail_top avail_left avail_corner) mode }
    ensures out_after { out.new ≡ written result out.old
        (block_of 4 (pred4x4_l mode avail_top avail_left avail_corner (near top.now left.now corner))) }
    ensures turned_block { TurnedBlock 4 pred4x4_l Any }
{
    number_of(jiwarbend::intra::jiwarbend_intra4x4_pred(
        mode,
        avail_top,
        avail_left,
        avail_corner,
        top,
        left,
        corner,
        out,
    ))
}

#[unsafe(no_mangle)]
pub extern "C" fn jiwarbend_intra8x8_pred(
    mode: u8,
    avail_top: bool,
    avail_left: bool,
    avail_corner: bool,
    top: &[u8],
    left: &[u8],
    corner: u8,
    out: &mut [u8],
) -> u32
    ensures value { result ≡ pred_answer 8 16 (length top.now) (length left.now) (length out.old)
        8 (permitted_nxn avail_top avail_left avail_corner) mode }
    ensures out_after { out.new ≡ written result out.old
        (block_of 8 (pred8x8_l mode avail_top avail_left avail_corner (near top.now left.now corner))) }
    ensures turned_block { TurnedBlock 8 pred8x8_l (Level 8) }
{
    number_of(jiwarbend::intra::jiwarbend_intra8x8_pred(
        mode,
        avail_top,
        avail_left,
        avail_corner,
        top,
        left,
        corner,
        out,
    ))
}

#[unsafe(no_mangle)]
pub extern "C" fn jiwarbend_luma16x16_pred(
    mode: u8,
    avail_top: bool,
    avail_left: bool,
    avail_corner: bool,
    top: &[u8],
    left: &[u8],
    corner: u8,
    out: &mut [u8],
) -> u32
    ensures value { result ≡ pred_answer 16 16 (length top.now) (length left.now) (length out.old)
        3 (permitted16x16 avail_top avail_left avail_corner) mode }
    ensures out_after { out.new ≡ written result out.old
        (block_of 16 (pred_l mode avail_top avail_left (near top.now left.now corner))) }
{
    number_of(jiwarbend::intra::jiwarbend_luma16x16_pred(
        mode,
        avail_top,
        avail_left,
        avail_corner,
        top,
        left,
        corner,
        out,
    ))
}

#[unsafe(no_mangle)]
pub extern "C" fn jiwarbend_chroma8x8_pred(
    mode: u8,
    avail_top: bool,
    avail_left: bool,
    avail_corner: bool,
    top: &[u8],
    left: &[u8],
    corner: u8,
    out: &mut [u8],
) -> u32
    ensures value { result ≡ pred_answer 8 8 (length top.now) (length left.now) (length out.old)
        3 (permitted_chroma avail_top avail_left avail_corner) mode }
    ensures out_after { out.new ≡ written result out.old
        (block_of 8 (pred_c mode avail_top avail_left (near top.now left.now corner))) }
{
    number_of(jiwarbend::intra::jiwarbend_chroma8x8_pred(
        mode,
        avail_top,
        avail_left,
        avail_corner,
        top,
        left,
        corner,
        out,
    ))
}

#[unsafe(no_mangle)]
pub extern "C" fn jiwarbend_luma16x16_dc(
    avail_top: bool,
    avail_left: bool,
    top: &[u8],
    left: &[u8],
    out: &mut [u8],
) -> u32
    ensures value { result ≡ answer (2 unless top.now has 16 ∷ 2 unless left.now has 16 ∷ 2 unless out.old has 1 ∷ []) }
    ensures out_after { out.new ≡ written result out.old (dc 16 avail_top avail_left (near top.now left.now 0) ∷ []) }
{
    number_of(jiwarbend::intra::jiwarbend_luma16x16_dc(avail_top, avail_left, top, left, out))
}

#[unsafe(no_mangle)]
pub extern "C" fn jiwarbend_chroma8x8_dc(
    avail_top: bool,
    avail_left: bool,
    top: &[u8],
    left: &[u8],
    out: &mut [u8],
) -> u32
    ensures value { result ≡ answer (2 unless top.now has 8 ∷ 2 unless left.now has 8 ∷ 2 unless out.old has 64 ∷ []) }
    ensures out_after { out.new ≡ written result out.old
        (block_of 8 (chroma_dc avail_top avail_left (near top.now left.now 0))) }
{
    number_of(jiwarbend::intra::jiwarbend_chroma8x8_dc(avail_top, avail_left, top, left, out))
}
