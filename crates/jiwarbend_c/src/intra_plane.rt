// Intra prediction for C, from the samples around a place of a plane.
ghost use Rattle.std.specs.Prelude.{◌≡◌, true, ◌&&◌, ◌++◌, ◌-◌, leb, length, drop};
ghost use Rattle.laws.specs.Answer.{written};
ghost use Rattle.laws.specs.Table.{block_of};
ghost use Rattle.samples.specs.Intra16x16.{pred_l};
ghost use Rattle.samples.specs.IntraChroma.{pred_c};
ghost use Rattle.samples.specs.IntraPlane.{plane_answer};
ghost use Rattle.basics.specs.Near.{near_in};

use refusals::number_of;

#[unsafe(no_mangle)]
pub extern "C" fn jiwarbend_i16x16_luma_pred(
    mode: u8,
    pred: &mut [u8],
    rec: &[u8],
    base: usize,
    stride: usize,
) -> u32
    ensures value { result ≡ plane_answer 16 (leb mode 3) (length pred.old) (length rec.now) base stride }
    ensures pred_after { pred.new ≡ written result pred.old
        (block_of 16 (pred_l mode true true (near_in rec.now (base - stride - 1) stride)) ++ drop 256 pred.old) }
{
    number_of(jiwarbend::intra_plane::jiwarbend_i16x16_luma_pred(mode, pred, rec, base, stride))
}

#[unsafe(no_mangle)]
pub extern "C" fn jiwarbend_chroma8x8_plane_pred(
    mode: u8,
    pred: &mut [u8],
    rec: &[u8],
    base: usize,
    stride: usize,
) -> u32
    ensures value { result ≡ plane_answer 8 (leb 2 mode && leb mode 3) (length pred.old) (length rec.now) base stride }
    ensures pred_after { pred.new ≡ written result pred.old
        (block_of 8 (pred_c mode true true (near_in rec.now (base - stride - 1) stride)) ++ drop 64 pred.old) }
{
    number_of(jiwarbend::intra_plane::jiwarbend_chroma8x8_plane_pred(mode, pred, rec, base, stride))
}
