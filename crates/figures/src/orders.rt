// Checking orders: 3 by 2 macroblocks in one slice, slices that do not wait for one another, and the limits of the two calls.
use super::tell::{answer, tell};
use jiwarbend::schedule::{jiwarbend_check_order, jiwarbend_out_of_place};
use std::io;

// What both calls say of an order. In place of the verdict and of the place stands 77 after calls that are refused.
fn check(
    rt: &impl Print,
    what: &[u8],
    w: u32,
    h: u32,
    slices: &[u16],
    order: &[u32],
) -> io::Result<()> {
    let verdict = jiwarbend_check_order(w, h, slices, order);
    let place = jiwarbend_out_of_place(w, h, slices, order);
    answer(rt, what, verdict)?;
    tell(rt, b"  verdict", verdict.map_or(77, u32::from))?;
    answer(rt, b"  out_of_place", place)?;
    tell(rt, b"  place", place.unwrap_or(77))
}

// An order of 3 by 2 macroblocks in one slice.
fn in_one_slice(rt: &impl Print, what: &[u8], order: &[u32]) -> io::Result<()> {
    check(rt, what, 3, 2, &[0u16; 6], order)
}

pub(crate) fn orders(rt: &impl Print) -> io::Result<()> {
    in_one_slice(rt, b"check_order, raster", &[0u32, 1, 2, 3, 4, 5])?;
    in_one_slice(rt, b"check_order, diagonals down", &[0u32, 1, 3, 2, 4, 5])?;
    in_one_slice(rt, b"check_order, diagonals up", &[0u32, 3, 1, 4, 2, 5])?;
    in_one_slice(rt, b"check_order, 4 twice and no 5", &[0u32, 1, 2, 3, 4, 4])?;
    in_one_slice(rt, b"check_order, 0 throughout", &[0u32; 6])?;
    sliced(rt)?;
    limits(rt)
}

fn sliced(rt: &impl Print) -> io::Result<()> {
    check(
        rt,
        b"check_order, a slice for each row, the second first",
        3,
        2,
        &[0u16, 0, 0, 1, 1, 1],
        &[3u32, 0, 4, 1, 5, 2],
    )?;
    check(
        rt,
        b"check_order, a slice for each, backwards",
        3,
        2,
        &[5u16, 4, 3, 2, 1, 0],
        &[5u32, 4, 3, 2, 1, 0],
    )
}

fn limits(rt: &impl Print) -> io::Result<()> {
    in_one_slice(rt, b"check_order, the address 6", &[0u32, 1, 2, 3, 4, 6])?;
    in_one_slice(rt, b"check_order, five addresses", &[0u32, 1, 2, 3, 4])?;
    in_one_slice(
        rt,
        b"check_order, seven addresses",
        &[0u32, 1, 2, 3, 4, 5, 5],
    )?;
    check(
        rt,
        b"check_order, a slice map of 5, the address 6",
        3,
        2,
        &[0u16; 5],
        &[6u32; 6],
    )?;
    check(rt, b"check_order, 0 by 1", 0, 1, &[0u16; 0], &[0u32; 0])?;
    check(rt, b"check_order, 1 by 1", 1, 1, &[65535u16; 1], &[0u32; 1])
}
