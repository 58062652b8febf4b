// The residuals of a list of coefficients, 64 numbers at a time, by either transform.
ghost use Rattle.std.specs.Prelude.{◌≡◌, ◌&&◌, true, Bool, cond, List, ◌++◌, ℕ, ◌*◌, ◌≤◌, ℤ, leb, ltb, length, drop, IfOk};
ghost use Rattle.laws.specs.Answer.{written};
ghost use Rattle.laws.specs.Range.{at};
ghost use Rattle.laws.specs.Table.{table, blockwise, all_blocks};
ghost use Rattle.numbers.specs.Numbers.{all_in_range, is_zero};
ghost use Rattle.refusals.specs.Refusal.{number_of};
ghost use Rattle.residual.specs.Quads.{coded_quad, coded_quads, mark_answer, blocks_answer, InQuads};

use numbers::reach::{any_of, with_list};
use refusals::Refusal;

// 64 numbers at the start of a list, all of them in range, with their mark.
#[derive(Clone, Copy)]
pub struct Quad<'a> {
    pub numbers: &'a [i32],
    pub mark: u8,
    pub ghost long: { 64 ≤ length numbers.now },
    pub ghost good: { all_in_range numbers.now ≡ true },
    pub ghost marked: { mark ≡ coded_quad numbers.now 0 },
}

// A transform of blocks of `size` numbers, 64 of which are one block or a few.
pub trait Transform {
    ghost size: { ℕ };

    // The residuals of a block, and whether every value on the way to them is in range.
    ghost inverse: { List ℤ → List ℤ };

    ghost in_range: { List ℤ → Bool };

    // The residuals of a quad over the first 64 places of `out`, and whether its blocks are in range. A list with fewer places stays as it is, and is told no.
    fn invert_quad(quad: Quad, out: &mut [i16]) -> bool
        ensures value { result ≡ (leb 64 (length out.old) && all_blocks size in_range (table 64 (at quad.entry.numbers.now))) }
        ensures out_after { out.new ≡ cond (leb 64 (length out.old))
            (blockwise size inverse (table 64 (at quad.entry.numbers.now)) ++ drop 64 out.old) out.old };

    ghost in_quads: { InQuads size in_range };
}

// The residuals of the blocks of a list, at the same places, and whether every block is in range, for callers that refuse where one is not; and for each
// quad, 64 numbers, whether it has a coefficient. Where a number is out of range no residual is made. Residuals have sixteen bits, so that nobody need ask
// for their range again. Compiled by itself, so that its loops are the same for every caller.
#[inline(never)]
pub fn inverse_blocks<T: Transform>(
    list: &[i32],
    out: &mut [i16],
    coded: &mut [u8],
) -> Result<bool, Refusal>
    ensures answer_value { number_of result ≡ blocks_answer list.now (length out.old) (length coded.old) }
    ensures in_range_value { IfOk result (λ b. b ≡ all_blocks T.size T.in_range list.now) }
    ensures out_after { out.new ≡ written (number_of result) out.old
        (cond (all_in_range list.now) (blockwise T.size T.inverse list.now) out.old) }
    ensures coded_after { coded.new ≡ written (number_of result) coded.old (coded_quads list.now) }
{
    if list.len() != out.len() {
        return Err(Refusal::Room);
    }
    Ok(mark_coded(list, coded)? && invert_quads::<T>(list, out, coded))
}

// Marks the quads of a list that have a coefficient, and says whether every number is in range: one look at each number.
pub fn mark_coded(list: &[i32], coded: &mut [u8]) -> Result<bool, Refusal>
    ensures answer_value { number_of result ≡ mark_answer (length list.now) (length coded.old) }
    ensures in_range_value { IfOk result (λ b. b ≡ all_in_range list.now) }
    ensures coded_after { coded.new ≡ written (number_of result) coded.old (coded_quads list.now) }
{
    if list.len() % 64 != 0 || list.len() / 64 != coded.len() {
        return Err(Refusal::Room);
    }
    Ok(mark_quads(list, coded))
}

fn mark_quads(list: &[i32], coded: &mut [u8]) -> bool
    requires { length list.now ≡ 64 * length coded.old }
    ensures value { result ≡ all_in_range list.now }
    ensures coded_after { coded.new ≡ coded_quads list.now }
{
    let mut good = true;
    for (q, mark) in coded.iter_mut().enumerate() {
        let quad = &list[64 * q..64 * q + 64];
        let reach = with_list(0, quad);
        *mark = mark_of(any_of(0, quad), reach);
        good &= reach < 32768;
    }
    good
}

// 0 where none of some numbers is other than 0, 1 where they reach no further than small ones, else 2: a number, for it goes into a lent list of bytes.
fn mark_of(any: i32, reach: u32) -> u8
    ensures { result ≡ cond (is_zero any) 0 (cond (ltb reach 2048) 1 2) }
{
    if any == 0 {
        0
    } else if reach < 2048 {
        1
    } else {
        2
    }
}

// The residuals of a list that passes, quad by quad, and whether every block is in range.
fn invert_quads<T: Transform>(list: &[i32], out: &mut [i16], coded: &[u8]) -> bool
    requires list_len { (length list.now ≡ 64 * length coded.now) × (length list.now ≡ length out.old) × (all_in_range list.now ≡ true) }
    requires coded_value { coded.now ≡ coded_quads list.now }
    ensures value { result ≡ all_blocks T.size T.in_range list.now }
    ensures out_after { out.new ≡ blockwise T.size T.inverse list.now }
{
    let mut good = true;
    for (q, mark) in coded.iter().enumerate() {
        let quad = Quad {
            numbers: &list[64 * q..],
            mark: *mark,
        };
        good &= T::invert_quad(quad, &mut out[64 * q..]);
    }
    good
}
