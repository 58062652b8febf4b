// The inverse and the clipped sums.
ghost use Rattle.std.specs.Prelude.{◌≤◌};

use crate::case::{same, same_numbers};
use jiwarbend::reconstruct;
use lists::numbers;
use refusals::Refusal;

// the answer, the coefficients, and the residual
pub(crate) fn inverse(c: &[u8]) -> bool {
    if c.len() != 97 {
        return false;
    }
    let mut deq = [0i32; 16];
    let mut wanted = [0i32; 16];
    numbers(&c[1..49], &mut deq);
    numbers(&c[49..97], &mut wanted);
    let mut out = [0i32; 16];
    let answer = reconstruct::jiwarbend_inverse_4x4(&deq, &mut out);
    same_numbers(answer, &out, c[0], &wanted)
}

pub(crate) fn reconstruct(c: &[u8]) -> bool {
    summed::<16, _>(c, reconstruct::jiwarbend_reconstruct_4x4)
}

pub(crate) fn add_4x4(c: &[u8]) -> bool {
    summed::<16, _>(c, reconstruct::jiwarbend_add_residual_4x4)
}

pub(crate) fn add_8x8(c: &[u8]) -> bool {
    summed::<64, _>(c, reconstruct::jiwarbend_add_residual_8x8)
}

pub(crate) fn reconstruct_into(c: &[u8]) -> bool {
    put::<16, _>(c, reconstruct::jiwarbend_reconstruct_4x4_into)
}

pub(crate) fn flat_into(c: &[u8]) -> bool {
    put::<1, _>(c, |first, pred, p_off, p_stride, rec, r_off, r_stride| {
        let value = first.first().copied().unwrap_or(0);
        reconstruct::jiwarbend_reconstruct_4x4_dc_into(
            value, pred, p_off, p_stride, rec, r_off, r_stride,
        )
    })
}

pub(crate) fn add_into(c: &[u8]) -> bool {
    put::<16, _>(c, reconstruct::jiwarbend_add_residual_4x4_into)
}

// the answer, coefficients or residual, the prediction, and the block
fn summed<const N: usize, F: Fn(&[i32], &[i32], &mut [u8]) -> Result<(), Refusal>>(
    c: &[u8],
    call: F,
) -> bool
    requires fits { N ≤ 64 }
    requires callable { F.IsAlwaysCallable call }
{
    if c.len() != 1 + 7 * N {
        return false;
    }
    let mut first = [0i32; N];
    let mut pred = [0i32; N];
    numbers(&c[1..1 + 3 * N], &mut first);
    numbers(&c[1 + 3 * N..1 + 6 * N], &mut pred);
    let mut out = [0u8; N];
    let answer = call(&first, &pred, &mut out);
    same(answer, &out, c[0], &c[1 + 6 * N..])
}

// the answer, both places and strides, coefficients or residual, 40 bytes to read, and 60 before and after the call
fn put<
    const N: usize,
    F: Fn(&[i32], &[u8], usize, usize, &mut [u8], usize, usize) -> Result<(), Refusal>,
>(c: &[u8], call: F) -> bool
    requires fits { N ≤ 64 }
    requires callable { F.IsAlwaysCallable call }
{
    if c.len() != 5 + 3 * N + 160 {
        return false;
    }
    let (given, bytes) = c[5..].split_at(3 * N);
    let (pred, planes) = bytes.split_at(40);
    let (before, after) = planes.split_at(60);
    let mut first = [0i32; N];
    numbers(given, &mut first);
    let mut rec = [0u8; 60];
    rec.copy_from_slice(before);
    let answer = call(
        &first,
        pred,
        usize::from(c[1]),
        usize::from(c[2]),
        &mut rec,
        usize::from(c[3]),
        usize::from(c[4]),
    );
    same(answer, &rec, c[0], after)
}
