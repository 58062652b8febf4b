// Picture construction before deblocking (clauses 8.5.1 and 8.5.14): prediction and residual, added and clipped, in arrays and in lent planes.
ghost use Rattle.std.specs.Prelude.{◌≡◌, true, ◌&&◌, [], ◌∷◌, ◌+◌, ◌≤◌, ◌<◌, eqb, pos, ◌+ℤ◌, length, get_or, take, replicate, IfOk};
ghost use Rattle.laws.specs.Answer.{◌unless◌, answer, written};
ghost use Rattle.laws.specs.Range.{AllWithin, at};
ghost use Rattle.basics.specs.Clip.{Clip1};
ghost use Rattle.numbers.specs.Numbers.{in_range, all_in_range};
ghost use Rattle.refusals.specs.Refusal.{number_of};
ghost use Rattle.residual.specs.Inverse.{inverse4x4, in_range4x4};
ghost use Rattle.residual.specs.Reconstruct.{sums, put_square, sum_in, rows_in, into_room, into_answer, sums_room, sums_answer};
ghost use Rattle.residual.specs.inner.Sums.{summed};

use super::inverse::invert_one;
use basics::clip::clip_u8;
use numbers::range::{all_in_range, narrow, narrow_all, widen_all};
use refusals::Refusal;

// The samples of a 4x4 block, from its coefficients and its prediction.
pub fn reconstruct_4x4(dequant: &[i32; 16], pred: &[i32; 16]) -> Result<[u8; 16], Refusal>
    ensures answer_value { number_of result ≡ answer (8 unless (in_range4x4 dequant.now && all_in_range pred.now) ∷ []) }
    ensures block_value { IfOk result (λ block. block ≡ sums 16 (inverse4x4 dequant.now) pred.now) }
{
    let mut block = [0u8; 16];
    reconstruct_4x4_lists(dequant, pred, &mut block)?;
    Ok(block)
}

// The same over lists, the samples put into lent memory.
pub fn reconstruct_4x4_lists(deq: &[i32], pred: &[i32], block: &mut [u8]) -> Result<(), Refusal>
    ensures value { number_of result ≡ sums_answer 16 in_range4x4 deq.now pred.now (length block.old) }
    ensures block_after { block.new ≡ written (number_of result) block.old (sums 16 (inverse4x4 deq.now) pred.now) }
{
    if !sums_room(16, deq.len(), pred.len(), block.len()) {
        return Err(Refusal::Room);
    }
    if !all_in_range(pred) {
        return Err(Refusal::Range);
    }
    let mut res = [0i16; 16];
    let mut wide = [0i32; 16];
    invert_one(deq, &mut res)?;
    widen_all(&res, &mut wide)?;
    block.copy_from_slice(&clipped_sums::<16>(&wide, pred));
    Ok(())
}

// The samples of a block of N, from its residual and its prediction.
pub fn add_residual<const N: usize>(res: &[i32; N], pred: &[i32; N]) -> Result<[u8; N], Refusal>
    ensures answer_value { number_of result ≡ answer (8 unless (all_in_range res.now && all_in_range pred.now) ∷ []) }
    ensures block_value { IfOk result (λ block. block ≡ sums N res.now pred.now) }
{
    if !both_in_range(res, pred) {
        return Err(Refusal::Range);
    }
    Ok(clipped_sums(res, pred))
}

// The same of n numbers, 64 at most, over lists, the samples put into lent memory. All sums are made before one is put, so that the compiled code takes them
// side by side.
pub fn add_residual_lists(
    n: usize,
    res: &[i32],
    pred: &[i32],
    block: &mut [u8],
) -> Result<(), Refusal>
    ensures value { number_of result ≡ sums_answer n all_in_range res.now pred.now (length block.old) }
    ensures block_after { block.new ≡ written (number_of result) block.old (sums n res.now pred.now) }
{
    if !sums_room(n, res.len(), pred.len(), block.len()) {
        return Err(Refusal::Room);
    }
    if !both_in_range(res, pred) {
        return Err(Refusal::Range);
    }
    block.copy_from_slice(&clipped_sums::<64>(res, pred)[..n]);
    Ok(())
}

// Whether there are n numbers, n of a prediction and n bytes, 64 at most.
#[tactic(auto, unfolding(crate::specs::Reconstruct::sums_room))]
fn sums_room(n: usize, numbers: usize, pred: usize, bytes: usize) -> bool
    ensures { result ≡ sums_room n numbers pred bytes }
{
    n <= 64 && numbers == n && pred == n && bytes == n
}

fn both_in_range(a: &[i32], b: &[i32]) -> bool
    ensures { result ≡ (all_in_range a.now && all_in_range b.now) }
{
    all_in_range(a) && all_in_range(b)
}

// The clipped sums of numbers that are in range, at most N, and 0 past them.
fn clipped_sums<const N: usize>(res: &[i32], pred: &[i32]) -> [u8; N]
    requires lengths { (length res.now ≤ N) × (length pred.now ≡ length res.now) }
    requires all_within { AllWithin 32768 res.now × AllWithin 32768 pred.now }
    ensures long { length result ≡ N }
    ensures sums { take (length res.now) result ≡ sums (length res.now) res.now pred.now }
{
    let mut made = [0u8; N];
    for (k, r) in res.iter().enumerate() {
        made[k] = clip_u8(pred[k] + *r);
    }
    made
}

// A place of rows in a buffer: where the first begins, and how far apart they are.
#[derive(Clone, Copy, Debug, PartialEq, Eq)]
pub struct Window {
    pub off: usize,
    pub stride: usize,
}

// A 4x4 block rebuilt in a plane from its sixteen coefficients, over a prediction that stands in a plane of its own.
pub fn reconstruct_4x4_into(
    deq: &[i32],
    pred: &[u8],
    from: Window,
    rec: &mut [u8],
    to: Window,
) -> Result<(), Refusal>
    ensures value { number_of result ≡ into_answer (eqb (length deq.now) 16) (in_range4x4 deq.now)
        (length pred.now) from.off from.stride (length rec.old) to.off to.stride }
    ensures rec_after { rec.new ≡ written (number_of result) rec.old
        (put_square 4 to.off to.stride (sum_in 4 (inverse4x4 deq.now) pred.now from.off from.stride) rec.old) }
{
    if deq.len() != 16 || !into_room(4, pred.len(), from, rec.len(), to) {
        return Err(Refusal::Room);
    }
    let mut res = [0i16; 16];
    invert_one(deq, &mut res)?;
    put_rows(&res, pred, from, rec, to);
    Ok(())
}

// The same where all sixteen residuals are `rval`.
pub fn reconstruct_4x4_dc_into(
    rval: i32,
    pred: &[u8],
    from: Window,
    rec: &mut [u8],
    to: Window,
) -> Result<(), Refusal>
    ensures value { number_of result ≡ into_answer true (in_range rval)
        (length pred.now) from.off from.stride (length rec.old) to.off to.stride }
    ensures rec_after { rec.new ≡ written (number_of result) rec.old
        (put_square 4 to.off to.stride (sum_in 4 (replicate 16 rval) pred.now from.off from.stride) rec.old) }
{
    if !into_room(4, pred.len(), from, rec.len(), to) {
        return Err(Refusal::Room);
    }
    put_rows(&[narrow(rval)?; 16], pred, from, rec, to);
    Ok(())
}

// The same from sixteen residuals.
pub fn add_residual_4x4_into(
    res: &[i32],
    pred: &[u8],
    from: Window,
    rec: &mut [u8],
    to: Window,
) -> Result<(), Refusal>
    ensures value { number_of result ≡ into_answer (eqb (length res.now) 16) (all_in_range res.now)
        (length pred.now) from.off from.stride (length rec.old) to.off to.stride }
    ensures rec_after { rec.new ≡ written (number_of result) rec.old
        (put_square 4 to.off to.stride (sum_in 4 res.now pred.now from.off from.stride) rec.old) }
{
    if res.len() != 16 || !into_room(4, pred.len(), from, rec.len(), to) {
        return Err(Refusal::Room);
    }
    let mut narrowed = [0i16; 16];
    narrow_all(res, &mut narrowed)?;
    put_rows(&narrowed, pred, from, rec, to);
    Ok(())
}

// Whether the strides are allowed and both blocks of side n lie in their buffers.
#[tactic(auto, unfolding(crate::specs::Reconstruct::into_room))]
fn into_room(n: usize, p_len: usize, from: Window, r_len: usize, to: Window) -> bool
    requires { (1 ≤ n) × (n ≤ 16) }
    ensures { result ≡ into_room n p_len from.off from.stride r_len to.off to.stride }
{
    from.stride <= 4096
        && n <= to.stride
        && to.stride <= 4096
        && rows_in(n, p_len, from)
        && rows_in(n, r_len, to)
}

// Whether n rows of n bytes lie in `len` bytes.
fn rows_in(n: usize, len: usize, w: Window) -> bool
    requires { (1 ≤ n) × (n ≤ 16) × (w.stride ≤ 4096) }
    ensures { result ≡ rows_in n len w.off w.stride }
{
    let rows = (n - 1) * w.stride + n;
    rows <= len && w.off <= len - rows
}

// The sums put into the plane, each row through its own part.
fn put_rows(res: &[i16; 16], pred: &[u8], from: Window, rec: &mut [u8], to: Window)
    requires { into_room 4 (length pred.now) from.off from.stride (length rec.old) to.off to.stride ≡ true }
    ensures { rec.new
        ≡ put_square 4 to.off to.stride (sum_in 4 res.now pred.now from.off from.stride) rec.old }
{
    // the number names the row in all three
    for y in 0..4 {
        let at = to.off + y * to.stride;
        put_four(res, 4 * y, pred, from.off + y * from.stride, &mut rec[at..]);
    }
}

// The first four bytes of a row, from places `k` and `p` on. All four are read before one is written: the compiled code then takes them side by side.
fn put_four(res: &[i16], k: usize, pred: &[u8], p: usize, row: &mut [u8])
    requires { (k + 4 ≤ length res.now) × (p + 4 ≤ length pred.now) × (4 ≤ length row.old) }
    ensures { row.new ≡ summed res.now k pred.now p 4 row.old }
{
    // four by name: tried and slower as an array that is copied into the row, whose sums are then made one after the other
    let a = sum_at(res, k, pred, p, 0);
    let b = sum_at(res, k, pred, p, 1);
    let c = sum_at(res, k, pred, p, 2);
    let d = sum_at(res, k, pred, p, 3);
    row[0] = a;
    row[1] = b;
    row[2] = c;
    row[3] = d;
}

// The clipped sum at place `x` of a row, whose residuals stand from `k` on and whose prediction stands from `p` on.
fn sum_at(res: &[i16], k: usize, pred: &[u8], p: usize, x: usize) -> u8
    requires { (k + x < length res.now) × (p + x < length pred.now) }
    ensures { result ≡ Clip1 (pos (get_or pred.now (p + x) 0) +ℤ at res.now (k + x)) }
{
    sum_of(pred[p + x], res[k + x])
}

// The clipped sum of a sample and a residual.
pub fn sum_of(p: u8, r: i16) -> u8
    ensures { result ≡ Clip1 (pos p +ℤ r) }
{
    clip_u8(i32::from(p) + i32::from(r))
}
