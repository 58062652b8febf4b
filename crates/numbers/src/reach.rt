// How far numbers reach: what a loop keeps of them to tell whether each is in range. It has no way out at the first that is not, and so is computed side by
// side.
ghost use Rattle.std.specs.Prelude.{◌≡◌, ◌&&◌, ℕ, ◌^◌, ltb};
ghost use Rattle.std.specs.Int.{w32};
ghost use Rattle.std.proofs.Common.{SFits};
ghost use Rattle.numbers.specs.Numbers.{mag_and, near, held, is_zero, all_of, last_in_range};

// The magnitude of `v`, which is -1 - v where that is negative, and else v and MORE: without more it is less than 2^k of the numbers -2^k..2^k - 1.
fn mag<const MORE: u8>(v: i32) -> u32
    ensures { result ≡ mag_and MORE v }
{
    if v < 0 {
        (-1 - v) as u32
    } else {
        v as u32 + u32::from(MORE)
    }
}

// The reach of some numbers with those of a list: all binary digits of their magnitudes, so that it is less than a power of two where each of these is.
fn reach<const MORE: u8>(x: u32, s: &[i32]) -> u32
    ensures { (k : ℕ) → ltb result (2 ^ k) ≡ (ltb x (2 ^ k) && all_of (λ z. ltb (mag_and MORE z) (2 ^ k)) s.now) }
{
    let mut reach = x;
    for v in s {
        reach |= mag::<MORE>(*v);
    }
    reach
}

// The reach without more.
pub fn with_list(x: u32, s: &[i32]) -> u32
    ensures { (k : ℕ) → ltb result (2 ^ k) ≡ (ltb x (2 ^ k) && all_of (near k) s.now) }
{
    reach::<0>(x, s)
}

// The same with values after the second pass of a transform, to which rounding adds 32.
pub fn with_last_list(x: u32, s: &[i32]) -> u32
    ensures { held result ≡ (held x && all_of last_in_range s.now) }
{
    reach::<32>(x, s)
}

// Other than 0 where `x` is, or a number of a list.
pub fn any_of(x: i32, s: &[i32]) -> i32
    ensures { SFits w32 result × (is_zero result ≡ (is_zero x && all_of is_zero s.now)) }
{
    let mut any = x;
    for v in s {
        any |= *v;
    }
    any
}
