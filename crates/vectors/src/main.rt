// Replays a list of blocks that were transformed outside the project (README.md says how it was made): each part has the blocks of one inverse, and each
// line of the output says how many it had and in how many of them the library's residuals are other ones. The last part holds a wrong number on purpose:
// its line says that one case differs.
#![tactic(auto)]

ghost use Rattle.std.specs.Prelude.{◌≤◌};

use jiwarbend::reconstruct;
use lists::{numbers, part};
use refusals::{Refusal, number_of};
use std::io;

fn inverse_4x4(c: &[u8]) -> bool {
    inverse::<16, _>(c, reconstruct::jiwarbend_inverse_4x4)
}

fn inverse_8x8(c: &[u8]) -> bool {
    inverse::<64, _>(c, reconstruct::jiwarbend_inverse_8x8)
}

// the answer, N coefficients and N residuals
fn inverse<const N: usize, F: Fn(&[i32], &mut [i32]) -> Result<(), Refusal>>(
    c: &[u8],
    call: F,
) -> bool
    requires fits { N ≤ 64 }
    requires callable { F.IsAlwaysCallable call }
{
    if c.len() != 1 + 6 * N {
        return false;
    }
    let (coefficients, residuals) = c[1..].split_at(3 * N);
    let mut deq = [0i32; N];
    let mut wanted = [0i32; N];
    numbers(coefficients, &mut deq);
    numbers(residuals, &mut wanted);
    let mut out = [0i32; N];
    number_of(call(&deq, &mut out)) == u32::from(c[0]) && out == wanted
}

fn main(rt: HostRuntime) -> io::Result<()> {
    let mut list = rt.reader();
    part(&rt, &mut list, b"inverse_4x4", 97, inverse_4x4)?;
    part(&rt, &mut list, b"inverse_8x8", 385, inverse_8x8)?;
    part(
        &rt,
        &mut list,
        b"a wrong number, on purpose",
        385,
        inverse_8x8,
    )
}
