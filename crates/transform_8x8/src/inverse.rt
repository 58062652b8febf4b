// The residuals of 8x8 blocks: of one in an array or in a list, and of the blocks of a list.
ghost use Rattle.std.specs.Prelude.{◌≡◌, true, [], ◌∷◌, ◌++◌, ◌≤◌, length, drop, IfOk};
ghost use Rattle.laws.specs.Answer.{◌unless◌, answer, written};
ghost use Rattle.refusals.specs.Refusal.{number_of};
ghost use Rattle.residual.specs.Inverse.{inverse_answer};
ghost use Rattle.transform_8x8.specs.Fits8x8.{Fits8x8};
ghost use Rattle.transform_8x8.specs.Inverse8x8.{inverse8x8, in_range8x8};
ghost use Rattle.transform_8x8.specs.inner.Firsts.{OnlyFirst};
ghost use Rattle.transform_8x8.specs.inner.Laws.{of_64};

use super::passes::invert;
use super::rows::round;
use numbers::range::widen_all;
use numbers::reach::any_of;
use refusals::Refusal;
use residual::blocks::{Quad, Transform, inverse_blocks};

// The residuals of 64 coefficients in raster order. Where they are given, sixteen bits hold every value on the way to them.
pub fn inverse_8x8(deq: &[i32; 64]) -> Result<[i32; 64], Refusal>
    ensures answer_value { number_of result ≡ answer (8 unless in_range8x8 deq.now ∷ []) }
    ensures block_value { IfOk result (λ block. block ≡ inverse8x8 deq.now) }
    ensures fits8x8 { number_of result ≡ 0 → Fits8x8 deq.now }
{
    let mut block = [0i32; 64];
    inverse_8x8_list(deq, &mut block)?;
    Ok(block)
}

// The same over lists, the residuals put into lent memory. C has it beside that of 4x4 blocks, which takes a block that is no whole quad.
pub fn inverse_8x8_list(deq: &[i32], out: &mut [i32]) -> Result<(), Refusal>
    ensures value { number_of result ≡ inverse_answer 64 in_range8x8 deq.now (length out.old) }
    ensures out_after { out.new ≡ written (number_of result) out.old (inverse8x8 deq.now) }
    ensures fits8x8 { number_of result ≡ 0 → Fits8x8 deq.now }
{
    if deq.len() != 64 || out.len() != 64 {
        return Err(Refusal::Room);
    }
    let mut res = [0i16; 64];
    let mut coded = [0u8; 1];
    if !inverse_blocks::<Blocks8x8>(deq, &mut res, &mut coded)? {
        return Err(Refusal::Range);
    }
    widen_all(&res, out)
}

// The transform of 8x8 blocks, of which 64 numbers are one.
pub struct Blocks8x8;

impl Transform for Blocks8x8 {
    ghost size = { 64 };

    ghost inverse = { inverse8x8 };

    ghost in_range = { in_range8x8 };

    ghost in_quads = { of_64 };

    // Where no number but the first is other than 0 the residuals are equal, and where none is they are 0.
    fn invert_quad(quad: Quad, out: &mut [i16]) -> bool {
        if out.len() < 64 {
            return false;
        }
        if quad.mark == 0 {
            out[..64].fill(0);
            return true;
        }
        if only_first(quad) {
            return flat(quad, out);
        }
        invert(quad, out)
    }
}

// Whether no number but the first is other than 0. The two that are looked at first are those most likely to be.
fn only_first(quad: Quad) -> bool
    ensures { result ≡ true → OnlyFirst quad.entry.numbers.now }
{
    let d = quad.numbers;
    d[1] == 0 && d[8] == 0 && any_of(0, &d[1..64]) == 0
}

// The same as `invert_quad` of such numbers.
fn flat(quad: Quad, out: &mut [i16]) -> bool
    requires { (64 ≤ length out.old) × OnlyFirst quad.numbers.now }
    ensures value { result ≡ in_range8x8 quad.entry.numbers.now }
    ensures out_after { out.new ≡ inverse8x8 quad.entry.numbers.now ++ drop 64 out.old }
{
    let v = quad.numbers[0];
    out[..64].fill(round(v));
    v <= 32735
}
