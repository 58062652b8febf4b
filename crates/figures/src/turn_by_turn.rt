// The turn list: a picture of 3 by 2 macroblocks in one slice turn by turn, how many turns pictures take, and the limits of the three calls.
ghost use Rattle.std.specs.Prelude.{◌≤◌};

use super::tell::{answer, tell};
use jiwarbend::schedule::{jiwarbend_count_rows, jiwarbend_turn, jiwarbend_turns};
use refusals::Refusal;
use std::io;

// Six turns from a cleared map, each taking its whole list.
pub(crate) fn whole_picture(rt: &impl Print) -> io::Result<()> {
    rt.write_all(b"turn by turn, 3 by 2 in one slice: how many, and the list's two places\n")?;
    let mut done = [0u8; 6];
    for _ in 0..6 {
        done = next(rt, done)?;
    }
    Ok(())
}

// The map after a turn. The list's places hold 99 before it.
fn next(rt: &impl Print, done: [u8; 6]) -> io::Result<[u8; 6]> {
    let mut rows = [0u32; 2];
    let mut list = [99u32; 2];
    answer(
        rt,
        b"count_rows",
        jiwarbend_count_rows(3, 2, &done, &mut rows),
    )?;
    let many = jiwarbend_turn(3, 2, &done, &[0u16; 6], &rows, &mut list);
    answer(rt, b"turn", many)?;
    tell(rt, b"  macroblocks", many.unwrap_or(0))?;
    tell(rt, b"  first place", list[0])?;
    tell(rt, b"  second place", list[1])?;
    Ok(mark(mark(done, list[0]), list[1]))
}

fn mark(done: [u8; 6], address: u32) -> [u8; 6] {
    let mut after = done;
    if address < 6 {
        after[address as usize] = 1;
    }
    after
}

// Counting N bytes of a done map in so many rows.
fn count<const N: usize, const ROWS: usize>(w: u32, h: u32) -> Result<(), Refusal>
    requires { (N ≤ 8160) × (ROWS ≤ 68) }
{
    jiwarbend_count_rows(w, h, &[1u8; N], &mut [7u32; ROWS])
}

pub(crate) fn counts(rt: &impl Print) -> io::Result<()> {
    answer(
        rt,
        b"count_rows, 120 by 68, 8160 bytes",
        count::<8160, 68>(120, 68),
    )?;
    answer(rt, b"count_rows, 121 by 68", count::<8160, 68>(121, 68))?;
    answer(rt, b"count_rows, 120 by 69", count::<8160, 68>(120, 69))?;
    answer(rt, b"count_rows, 3 by 2, 6 bytes", count::<6, 2>(3, 2))?;
    answer(rt, b"count_rows, 3 by 2, 5 bytes", count::<5, 2>(3, 2))?;
    answer(
        rt,
        b"count_rows, 2 by 3, 6 bytes and two counts",
        count::<6, 2>(2, 3),
    )
}

// The first row is done but for its last macroblock. The second is done up to its second one, whose byte is 2: that is not done.
const HALF: [u8; 6] = [1, 1, 0, 1, 2, 1];

// A turn of that map with a slice map of so many entries, with these counts and into this list.
fn half(slices: &[u16], rows: &[u32], list: &mut [u32]) -> Result<u32, Refusal> {
    jiwarbend_turn(3, 2, &HALF, slices, rows, list)
}

// What is left of the list by a refused turn, and in place of the number.
fn refused(rt: &impl Print) -> io::Result<()> {
    let mut list = [99u32; 2];
    let many = half(&[0u16; 6], &[2u32, 2], &mut list);
    answer(rt, b"turn, a count ahead", many)?;
    tell(rt, b"  macroblocks", many.unwrap_or(77))?;
    tell(rt, b"  first place", list[0])?;
    tell(rt, b"  second place", list[1])
}

pub(crate) fn turns(rt: &impl Print) -> io::Result<()> {
    let one = [0u16; 6];
    let mut list = [99u32; 2];
    let told = half(&one, &[2u32, 1], &mut list);
    answer(rt, b"turn, 3 by 2, counts 2 and 1", told)?;
    let behind = half(&one, &[1u32, 1], &mut list);
    answer(rt, b"turn, a count behind", behind)?;
    refused(rt)?;
    let five = half(&[0u16; 5], &[2u32, 1], &mut list);
    answer(rt, b"turn, a slice map of 5", five)?;
    let three = half(&one, &[2u32, 1, 0], &mut list);
    answer(rt, b"turn, three counts", three)?;
    let long = half(&one, &[2u32, 1], &mut [99u32; 3]);
    answer(rt, b"turn, a list of three places", long)
}

// How many turns a picture with this slice map takes, and 77 in place of the number after a call that is refused.
fn how_many(rt: &impl Print, what: &[u8], w: u32, h: u32, slices: &[u16]) -> io::Result<()> {
    let turns = jiwarbend_turns(w, h, slices);
    answer(rt, what, turns)?;
    tell(rt, b"  turns", turns.unwrap_or(77))
}

// The same of a slice map of 8160 in one slice.
fn how_many_8160(rt: &impl Print, what: &[u8], w: u32, h: u32) -> io::Result<()> {
    how_many(rt, what, w, h, &[0u16; 8160])
}

pub(crate) fn how_many_turns(rt: &impl Print) -> io::Result<()> {
    how_many(rt, b"turns, 3 by 2 in one slice", 3, 2, &[0u16; 6])?;
    sliced(rt)?;
    columns(rt)?;
    how_many_8160(rt, b"turns, 120 by 68 in one slice", 120, 68)?;
    refused_sizes(rt)?;
    how_many(rt, b"turns, 3 by 2, a slice map of 5", 3, 2, &[0u16; 5])?;
    how_many(rt, b"turns, 3 by 2, a slice map of 7", 3, 2, &[0u16; 7])
}

fn sliced(rt: &impl Print) -> io::Result<()> {
    how_many(
        rt,
        b"turns, 3 by 2, a slice for each row",
        3,
        2,
        &[0u16, 0, 0, 1, 1, 1],
    )?;
    how_many(
        rt,
        b"turns, 3 by 2, a slice from the third macroblock on",
        3,
        2,
        &[0u16, 0, 1, 1, 1, 1],
    )?;
    how_many(rt, b"turns, 2 by 1 in two slices", 2, 1, &[0u16, 1])
}

fn columns(rt: &impl Print) -> io::Result<()> {
    how_many(rt, b"turns, 1 by 3 in one slice", 1, 3, &[0u16; 3])?;
    how_many(rt, b"turns, 1 by 3 in three slices", 1, 3, &[0u16, 1, 2])?;
    how_many(rt, b"turns, 1 by 1", 1, 1, &[65535u16; 1])?;
    how_many(rt, b"turns, 1 by 68 in one slice", 1, 68, &[0u16; 68])
}

fn refused_sizes(rt: &impl Print) -> io::Result<()> {
    how_many_8160(rt, b"turns, 121 by 68", 121, 68)?;
    how_many_8160(rt, b"turns, 120 by 69", 120, 69)?;
    how_many(rt, b"turns, 0 by 1, no slices", 0, 1, &[0u16; 0])
}
