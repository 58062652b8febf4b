// A line of the account: what was run, and the number that came of it.
use refusals::{Refusal, number_of};
use std::io;

pub(crate) fn tell(rt: &impl Print, what: &[u8], number: u32) -> io::Result<()> {
    rt.write_all(what)?;
    println!(rt; ": {number}")
}

// The same of a call: 0, or the number of its refusal.
pub(crate) fn answer<T: Drop>(
    rt: &impl Print,
    what: &[u8],
    outcome: Result<T, Refusal>,
) -> io::Result<()> {
    tell(rt, what, number_of(outcome))
}
