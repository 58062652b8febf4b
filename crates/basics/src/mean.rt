// The rounded mean that DC prediction takes (clauses 8.3.1.2.3, 8.3.2.2.4, 8.3.3.3 and 8.3.4.1).
ghost use Rattle.std.specs.Prelude.{◌≡◌, ◌/◌, ◌%◌};
ghost use Rattle.basics.specs.Near.{mean};

// The mean of the sides that are there, by the sums of n samples each; 128 where neither is. It is kept to a byte, which every mean of samples is.
// A flag stands beside each sum: chroma adds up its sides once, and asks four times with the same sums and other flags, so Options are no plainer.
#[tactic(auto, unfolding(crate::specs::Near::mean))]
pub fn mean_of(n: u32, above: bool, left: bool, sum_above: u32, sum_left: u32) -> u8
    ensures { result ≡ mean n above left sum_above sum_left % 256 }
{
    let a = u64::from(sum_above);
    let l = u64::from(sum_left);
    let m = u64::from(n);
    match (above, left) {
        (true, true) => byte_over(a + l + m, 2 * m),
        (true, false) => byte_over(a + m / 2, m),
        (false, true) => byte_over(l + m / 2, m),
        (false, false) => 128,
    }
}

// A number over another, kept to a byte; over 0 it is 0.
fn byte_over(s: u64, m: u64) -> u8
    ensures { result ≡ s / m % 256 }
{
    (s.checked_div(m).unwrap_or(0) % 256) as u8
}
