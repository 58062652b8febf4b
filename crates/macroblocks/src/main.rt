// Replays a fixed list of macroblocks that the Rust's routines rebuilt (README.md says how it was made): each line of the output is a group of
// cases, with their number and in how many of them the answer or a byte of the planes is another one. The last group holds a wrong byte on purpose:
// its line says that one case differs.
#![tactic(auto)]

mod case;

use std::io;
use std::io::Read;

fn group(rt: &impl Print, input: &mut impl Read, name: &[u8]) -> io::Result<()> {
    let n = lists::how_many(input)?;
    let wrong = replay(input, n)?;
    lists::tell(rt, name, n, wrong)
}

// How many of the next n cases differ.
fn replay(input: &mut impl Read, n: u32) -> io::Result<u32> {
    let mut wrong = 0;
    for _ in 0..n {
        if !case::next_agrees(input)? {
            wrong = lists::more(wrong);
        }
    }
    Ok(wrong)
}

fn main(rt: HostRuntime) -> io::Result<()> {
    let mut input = rt.reader();
    group(&rt, &mut input, b"kind 0, 4x4")?;
    group(&rt, &mut input, b"kind 1, 8x8")?;
    group(&rt, &mut input, b"kind 2, 16x16")?;
    group(&rt, &mut input, b"refused 2")?;
    group(&rt, &mut input, b"refused 6")?;
    group(&rt, &mut input, b"refused 7")?;
    group(&rt, &mut input, b"refused 8")?;
    group(&rt, &mut input, b"a wrong byte, on purpose")
}
