// The predictors that read their neighbours from the plane and write into a lent prediction. They take no marks: DC takes both sides.
ghost use Rattle.std.specs.Prelude.{◌≡◌, true, ◌&&◌, ◌++◌, ℕ, ◌-◌, ◌≤◌, ◌<◌, ltb, leb, length, drop};
ghost use Rattle.laws.specs.Answer.{written};
ghost use Rattle.laws.specs.Table.{block_of};
ghost use Rattle.refusals.specs.Refusal.{number_of};
ghost use Rattle.basics.specs.Near.{near_in};
ghost use Rattle.samples.specs.Intra16x16.{pred_l};
ghost use Rattle.samples.specs.IntraChroma.{pred_c};
ghost use Rattle.samples.specs.IntraPlane.{room_round, plane_answer};
ghost use Rattle.samples.specs.inner.Line.{Round, Stands};
ghost use Rattle.samples.specs.inner.Surroundings.{Surroundings};

use super::line::{Around, Line};
use super::whole::Whole;
use basics::marks::Sides;
use basics::modes::{ChromaMode, Luma16x16Mode};
use refusals::Refusal;

// 16x16 luma at `base` of the plane `rec`, into the first 256 bytes of `pred`. Modes 0 to 3.
pub fn i16x16_luma_pred(
    mode: u8,
    pred: &mut [u8],
    rec: &[u8],
    base: usize,
    stride: usize,
) -> Result<(), Refusal>
    ensures answer { number_of result ≡ plane_answer 16 (leb mode 3) (length pred.old) (length rec.now) base stride }
    ensures lent { pred.new ≡ written (number_of result) pred.old
        (block_of 16 (pred_l mode true true (near_in rec.now (base - stride - 1) stride)) ++ drop 256 pred.old) }
{
    if pred.len() < 256 || !room_round(16, rec.len(), base, stride) {
        return Err(Refusal::Room);
    }
    let mode = Luma16x16Mode::try_from(mode)?;
    mode.predict(round(rec, base, stride), pred);
    Ok(())
}

// 8x8 chroma in the same way, into the first 64 bytes. Modes 2 and 3. The two differ in the first mode, the side and the type of the mode: one function of both
// would be no shorter.
pub fn chroma8x8_pred(
    mode: u8,
    pred: &mut [u8],
    rec: &[u8],
    base: usize,
    stride: usize,
) -> Result<(), Refusal>
    ensures answer { number_of result ≡ plane_answer 8 (leb 2 mode && leb mode 3) (length pred.old) (length rec.now) base stride }
    ensures lent { pred.new ≡ written (number_of result) pred.old
        (block_of 8 (pred_c mode true true (near_in rec.now (base - stride - 1) stride)) ++ drop 64 pred.old) }
{
    if pred.len() < 64 || !room_round(8, rec.len(), base, stride) {
        return Err(Refusal::Room);
    }
    if mode < 2 {
        return Err(Refusal::Unknown);
    }
    let mode = ChromaMode::try_from(mode)?;
    mode.predict(round(rec, base, stride), pred);
    Ok(())
}

// The samples that stand round a block in the plane, where both sides are there.
fn round(rec: &[u8], base: usize, stride: usize) -> Around
    requires { (stride < base) × (base ≤ length rec.now) }
    ensures lies { (n : ℕ) → Surroundings n (length rec.now) base stride → Round n result }
    ensures stands { (n : ℕ) → Surroundings n (length rec.now) base stride → Stands n result (near_in rec.now (base - stride - 1) stride) }
    ensures corner { result.corner ≡ near_in rec.now (base - stride - 1) stride 0 0 }
    ensures sides { (result.sides.above ≡ true) × (result.sides.left ≡ true) }
{
    Around {
        sides: Sides {
            above: true,
            left: true,
            corner: true,
            above_right: false,
        },
        above: Line {
            samples: rec,
            at: base - stride,
            stride: 1,
        },
        left: Line {
            samples: rec,
            at: base - 1,
            stride,
        },
        corner: rec[base - stride - 1],
    }
}

// Whether the corner, the row above and the column to the left of a block of side n at `base` lie in `len` bytes, and the stride is 1..4096.
fn room_round(n: usize, len: usize, base: usize, stride: usize) -> bool
    requires { (1 ≤ n) × (n ≤ 16) }
    ensures { result ≡ room_round n len base stride }
{
    starts_in(len, base, stride) && (n - 1) * stride <= len - base
}

// The same of the corner and the block's first sample.
fn starts_in(len: usize, base: usize, stride: usize) -> bool
    ensures { result ≡ ltb 0 stride && leb stride 4096 && ltb stride base && leb base len }
{
    0 < stride && stride <= 4096 && stride < base && base <= len
}
