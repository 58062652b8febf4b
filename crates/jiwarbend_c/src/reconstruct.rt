// The inverse transforms and clipped sums for C, in lists and in lent planes.
ghost use Rattle.std.specs.Prelude.{◌≡◌, true, eqb, length, replicate};
ghost use Rattle.laws.specs.Answer.{written};
ghost use Rattle.numbers.specs.Numbers.{in_range, all_in_range};
ghost use Rattle.residual.specs.Fits4x4.{Fits4x4};
ghost use Rattle.residual.specs.Inverse.{inverse4x4, in_range4x4, inverse_answer};
ghost use Rattle.residual.specs.Reconstruct.{sums, put_square, sum_in, into_answer, sums_answer};
ghost use Rattle.transform_8x8.specs.Fits8x8.{Fits8x8};
ghost use Rattle.transform_8x8.specs.Inverse8x8.{inverse8x8, in_range8x8};

use refusals::number_of;

#[unsafe(no_mangle)]
pub extern "C" fn jiwarbend_inverse_4x4(deq: &[i32], out: &mut [i32]) -> u32
    ensures value { result ≡ inverse_answer 16 in_range4x4 deq.now (length out.old) }
    ensures out_after { out.new ≡ written result out.old (inverse4x4 deq.now) }
    ensures fits4x4 { result ≡ 0 → Fits4x4 deq.now }
{
    number_of(jiwarbend::reconstruct::jiwarbend_inverse_4x4(deq, out))
}

#[unsafe(no_mangle)]
pub extern "C" fn jiwarbend_inverse_8x8(deq: &[i32], out: &mut [i32]) -> u32
    ensures value { result ≡ inverse_answer 64 in_range8x8 deq.now (length out.old) }
    ensures out_after { out.new ≡ written result out.old (inverse8x8 deq.now) }
    ensures fits8x8 { result ≡ 0 → Fits8x8 deq.now }
{
    number_of(jiwarbend::reconstruct::jiwarbend_inverse_8x8(deq, out))
}

#[unsafe(no_mangle)]
pub extern "C" fn jiwarbend_reconstruct_4x4(deq: &[i32], pred: &[i32], out: &mut [u8]) -> u32
    ensures value { result ≡ sums_answer 16 in_range4x4 deq.now pred.now (length out.old) }
    ensures out_after { out.new ≡ written result out.old (sums 16 (inverse4x4 deq.now) pred.now) }
{
    number_of(jiwarbend::reconstruct::jiwarbend_reconstruct_4x4(deq, pred, out))
}

#[unsafe(no_mangle)]
pub extern "C" fn jiwarbend_add_residual_4x4(res: &[i32], pred: &[i32], out: &mut [u8]) -> u32
    ensures value { result ≡ sums_answer 16 all_in_range res.now pred.now (length out.old) }
    ensures out_after { out.new ≡ written result out.old (sums 16 res.now pred.now) }
{
    number_of(jiwarbend::reconstruct::jiwarbend_add_residual_4x4(res, pred, out))
}

#[unsafe(no_mangle)]
pub extern "C" fn jiwarbend_add_residual_8x8(res: &[i32], pred: &[i32], out: &mut [u8]) -> u32
    ensures value { result ≡ sums_answer 64 all_in_range res.now pred.now (length out.old) }
    ensures out_after { out.new ≡ written result out.old (sums 64 res.now pred.now) }
{
    number_of(jiwarbend::reconstruct::jiwarbend_add_residual_8x8(res, pred, out))
}

#[unsafe(no_mangle)]
pub extern "C" fn jiwarbend_reconstruct_4x4_into(
    deq: &[i32],
    pred: &[u8],
    p_off: usize,
    p_stride: usize,
    rec: &mut [u8],
    r_off: usize,
    r_stride: usize,
) -> u32
    ensures value { result ≡ into_answer (eqb (length deq.now) 16) (in_range4x4 deq.now)
        (length pred.now) p_off p_stride (length rec.old) r_off r_stride }
    ensures rec_after { rec.new ≡ written result rec.old
        (put_square 4 r_off r_stride (sum_in 4 (inverse4x4 deq.now) pred.now p_off p_stride) rec.old) }
{
    number_of(jiwarbend::reconstruct::jiwarbend_reconstruct_4x4_into(
        deq, pred, p_off, p_stride, rec, r_off, r_stride,
    ))
}

#[unsafe(no_mangle)]
pub extern "C" fn jiwarbend_reconstruct_4x4_dc_into(
    rval: i32,
    pred: &[u8],
    p_off: usize,
    p_stride: usize,
    rec: &mut [u8],
    r_off: usize,
    r_stride: usize,
) -> u32
    ensures value { result ≡ into_answer true (in_range rval)
        (length pred.now) p_off p_stride (length rec.old) r_off r_stride }
    ensures rec_after { rec.new ≡ written result rec.old
        (put_square 4 r_off r_stride (sum_in 4 (replicate 16 rval) pred.now p_off p_stride) rec.old) }
{
    number_of(jiwarbend::reconstruct::jiwarbend_reconstruct_4x4_dc_into(
        rval, pred, p_off, p_stride, rec, r_off, r_stride,
    ))
}

#[unsafe(no_mangle)]
pub extern "C" fn jiwarbend_add_residual_4x4_into(
    res: &[i32],
    pred: &[u8],
    p_off: usize,
    p_stride: usize,
    rec: &mut [u8],
    r_off: usize,
    r_stride: usize,
) -> u32
    ensures value { result ≡ into_answer (eqb (length res.now) 16) (all_in_range res.now)
        (length pred.now) p_off p_stride (length rec.old) r_off r_stride }
    ensures rec_after { rec.new ≡ written result rec.old
        (put_square 4 r_off r_stride (sum_in 4 res.now pred.now p_off p_stride) rec.old) }
{
    number_of(jiwarbend::reconstruct::jiwarbend_add_residual_4x4_into(
        res, pred, p_off, p_stride, rec, r_off, r_stride,
    ))
}
