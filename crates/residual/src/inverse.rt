// The transformation of residual 4x4 blocks (clause 8.5.12.2).
ghost use Rattle.std.specs.Prelude.{◌≡◌, true, [], ◌∷◌, ◌++◌, ◌≤◌, pos, length, drop, replicate, IfOk};
ghost use Rattle.std.specs.Int.Signed.{le_z};
ghost use Rattle.laws.specs.Answer.{◌unless◌, answer, written};
ghost use Rattle.laws.specs.Range.{Within};
ghost use Rattle.refusals.specs.Refusal.{number_of};
ghost use Rattle.residual.specs.Fits4x4.{Fits4x4};
ghost use Rattle.residual.specs.Inverse.{rounded, inverse4x4, in_range4x4, inverse_answer};
ghost use Rattle.residual.specs.inner.Quads.{quad_inverse, quad_in_range, OnlyFirsts};
ghost use Rattle.residual.specs.inner.Laws.{of_16};

use super::blocks::{Quad, Transform};
use super::passes::{columns, rows, values_in_range};
use super::rounding::{round, round_all};
use numbers::range::widen_all;
use numbers::reach::{any_of, with_list};
use refusals::Refusal;

// The residuals of sixteen coefficients in raster order. Where they are given, sixteen bits hold every value on the way to them.
pub fn inverse_4x4(deq: &[i32; 16]) -> Result<[i32; 16], Refusal>
    ensures answer_value { number_of result ≡ answer (8 unless in_range4x4 deq.now ∷ []) }
    ensures block_value { IfOk result (λ block. block ≡ inverse4x4 deq.now) }
    ensures fits4x4 { number_of result ≡ 0 → Fits4x4 deq.now }
{
    let mut block = [0i32; 16];
    inverse_4x4_list(deq, &mut block)?;
    Ok(block)
}

// The same over lists, the residuals put into lent memory.
pub fn inverse_4x4_list(deq: &[i32], out: &mut [i32]) -> Result<(), Refusal>
    ensures value { number_of result ≡ inverse_answer 16 in_range4x4 deq.now (length out.old) }
    ensures out_after { out.new ≡ written (number_of result) out.old (inverse4x4 deq.now) }
    ensures fits4x4 { number_of result ≡ 0 → Fits4x4 deq.now }
{
    if deq.len() != 16 || out.len() != 16 {
        return Err(Refusal::Room);
    }
    let mut res = [0i16; 16];
    invert_one(deq, &mut res)?;
    widen_all(&res, out)
}

// The residuals of sixteen coefficients, put into lent memory: tried and slower as an array that is given back, since each number is then moved by itself.
pub(crate) fn invert_one(d: &[i32], out: &mut [i16]) -> Result<(), Refusal>
    requires { (length d.now ≡ 16) × (length out.old ≡ 16) }
    ensures value { number_of result ≡ answer (8 unless in_range4x4 d.now ∷ []) }
    ensures residuals { IfOk result (λ _. out.new ≡ inverse4x4 d.now) }
{
    let reach = with_list(0, d);
    if 32768 <= reach {
        return Err(Refusal::Range);
    }
    let mut f = [0i32; 16];
    let mut h = [0i32; 16];
    rows(d, &mut f);
    columns(&f, &mut h);
    round_all(&h, out);
    if 2048 <= reach && !values_in_range(&f, &h) {
        return Err(Refusal::Range);
    }
    Ok(())
}

// The transform of 4x4 blocks, of which 64 numbers are four.
pub struct Blocks4x4;

impl Transform for Blocks4x4 {
    ghost size = { 16 };

    ghost inverse = { inverse4x4 };

    ghost in_range = { in_range4x4 };

    ghost in_quads = { of_16 };

    // Where no number but the first of each block is other than 0 the residuals of a block are equal, and where none is they are 0.
    fn invert_quad(quad: Quad, out: &mut [i16]) -> bool {
        if out.len() < 64 {
            return false;
        }
        if quad.mark == 0 {
            out[..64].fill(0);
            return true;
        }
        if only_firsts(quad) {
            return flatten(quad, out);
        }
        invert_four(quad, out)
    }
}

// The same by the two passes. Where the numbers are small no value on the way can leave its range, and none is looked at.
fn invert_four(quad: Quad, out: &mut [i16]) -> bool
    requires { 64 ≤ length out.old }
    ensures value { result ≡ quad_in_range quad.entry.numbers.now }
    ensures out_after { out.new ≡ quad_inverse quad.entry.numbers.now ++ drop 64 out.old }
{
    let mut f = [0i32; 64];
    let mut h = [0i32; 64];
    rows(quad.numbers, &mut f);
    // the number names the block in both lists
    for b in 0..4 {
        columns(&f[16 * b..], &mut h[16 * b..]);
    }
    round_all(&h, &mut out[..64]);
    quad.mark == 1 || values_in_range(&f, &h)
}

// Whether a quad may have an easy form, by four of the coefficients that are most likely to be other than 0.
fn may_be_easy(quad: Quad) -> bool {
    let d = quad.numbers;
    d[1] == 0 && d[4] == 0 && d[17] == 0 && d[20] == 0
}

// Whether no number but the first of each block is other than 0.
fn only_firsts(quad: Quad) -> bool
    ensures { result ≡ true → OnlyFirsts 16 quad.entry.numbers.now }
{
    if !may_be_easy(quad) {
        return false;
    }
    let d = quad.numbers;
    let mut any = 0;
    // the block's places are computed from its number
    for b in 0..4 {
        any = any_of(any, &d[16 * b + 1..16 * b + 16]);
    }
    any == 0
}

// The same as `invert_quad` of such numbers.
fn flatten(quad: Quad, out: &mut [i16]) -> bool
    requires { (64 ≤ length out.old) × OnlyFirsts 16 quad.numbers.now }
    ensures value { result ≡ quad_in_range quad.entry.numbers.now }
    ensures out_after { out.new ≡ quad_inverse quad.entry.numbers.now ++ drop 64 out.old }
{
    let d = quad.numbers;
    let mut good = true;
    // the number names the block in both lists
    for b in 0..4 {
        good &= flat(d[16 * b], &mut out[16 * b..]);
    }
    good
}

// Sixteen equal residuals of a coefficient over the first places of `out`, and whether it is not too high.
fn flat(v: i32, out: &mut [i16]) -> bool
    requires { (16 ≤ length out.old) × Within 32768 v }
    ensures value { result ≡ le_z v (pos 32735) }
    ensures out_after { out.new ≡ replicate 16 (rounded v) ++ drop 16 out.old }
{
    out[..16].fill(round(v));
    v <= 32735
}
