// The limits of the picture calls, a dialogue of accepted and refused calls, and a picture rebuilt out of order. Pictures are 3 by 2 macroblocks where
// nothing else is said, in planes with padding beside and after the rows.
ghost use Rattle.std.specs.Prelude.{◌≤◌};

use super::offer::offer;
use super::tell::answer;
use jiwarbend::pictures::jiwarbend_start;
use macroblock::{Planes, Record, Strides};
use maps::size::Spot;
use refusals::Refusal;
use std::io;

// A record of a kind with DC everywhere: permitted wherever it stands. The kind is a number, since some cases give one that is unknown.
fn flat(kind: u8) -> Record {
    let mut modes = [0u8; 16];
    match kind {
        0 => modes.fill(2),
        1 => modes[..4].fill(2),
        _ => modes[0] = 2,
    }
    Record {
        kind,
        modes,
        chroma_mode: 0,
        numbers: [0i32; 384],
    }
}

// The same with one mode, one number or the chroma mode put anew.
fn with_mode(mut r: Record, k: usize, mode: u8) -> Record {
    if k < 16 {
        r.modes[k] = mode;
    }
    r
}

fn with_chroma(mut r: Record, mode: u8) -> Record {
    r.chroma_mode = mode;
    r
}

fn with_number(mut r: Record, v: i32) -> Record {
    r.numbers[383] = v;
    r
}

// Starting a picture with N bytes of a done map.
fn start<const N: usize>(w: u32, h: u32) -> Result<(), Refusal>
    requires { N ≤ 8160 }
{
    jiwarbend_start(w, h, &mut [7u8; N], &mut [9u32; 2])
}

pub(crate) fn starts(rt: &impl Print) -> io::Result<()> {
    answer(rt, b"start, 120 by 68, 8160 bytes", start::<8160>(120, 68))?;
    answer(rt, b"start, 121 by 68", start::<8160>(121, 68))?;
    answer(rt, b"start, 0 by 1", start::<6>(0, 1))?;
    answer(rt, b"start, 1 by 69", start::<6>(1, 69))?;
    answer(rt, b"start, 3 by 2, 6 bytes", start::<6>(3, 2))?;
    answer(rt, b"start, 3 by 2, 5 bytes", start::<5>(3, 2))
}

// One call on column x of a row of w macroblocks, with maps of N entries.
fn in_row<const N: usize>(
    w: u32,
    x: u32,
    luma_stride: usize,
    chroma_stride: usize,
) -> Result<(), Refusal>
    requires { N ≤ 8160 }
{
    let strides = Strides {
        luma: luma_stride,
        cb: chroma_stride,
        cr: chroma_stride,
    };
    let planes = Planes {
        luma: &mut [0u8; 32768],
        cb: &mut [0u8; 8192],
        cr: &mut [0u8; 8192],
        strides,
    };
    let spot = Spot { w, h: 1, x, y: 0 };
    offer(
        spot,
        planes,
        &mut [0u8; N],
        &[0u16; N],
        &mut [0u32; 2],
        flat(2),
    )
}

pub(crate) fn sizes(rt: &impl Print) -> io::Result<()> {
    answer(rt, b"rebuild, W 120", in_row::<120>(120, 0, 1920, 960))?;
    answer(rt, b"rebuild, W 121", in_row::<120>(121, 0, 1936, 968))?;
    answer(
        rt,
        b"rebuild, W 3, luma stride 48",
        in_row::<3>(3, 0, 48, 24),
    )?;
    answer(
        rt,
        b"rebuild, W 3, luma stride 47",
        in_row::<3>(3, 0, 47, 24),
    )?;
    answer(
        rt,
        b"rebuild, W 3, chroma stride 23",
        in_row::<3>(3, 0, 48, 23),
    )?;
    answer(rt, b"rebuild, W 3, x 3", in_row::<3>(3, 3, 48, 24))
}

// One call at (x, y) where the maps are these and `count` macroblocks are counted.
fn at(
    x: u32,
    y: u32,
    mut done: [u8; 6],
    slices: [u16; 6],
    count: u32,
    record: Record,
) -> Result<(), Refusal> {
    let strides = Strides {
        luma: 52,
        cb: 27,
        cr: 27,
    };
    let planes = Planes {
        luma: &mut [0u8; 1670],
        cb: &mut [0u8; 440],
        cr: &mut [0u8; 440],
        strides,
    };
    let spot = Spot { w: 3, h: 2, x, y };
    offer(spot, planes, &mut done, &slices, &mut [count, 0], record)
}

// Slice 0 at address 0 and slice 1 elsewhere: address 4 has A, B and C but not D, and address 3 has C but not B.
pub(crate) fn slices(rt: &impl Print) -> io::Result<()> {
    let map: [u16; 6] = [0, 1, 1, 1, 1, 1];
    let four: [u8; 6] = [1, 1, 1, 1, 0, 0];
    let three: [u8; 6] = [1, 1, 1, 0, 0, 0];
    answer(
        rt,
        b"address 4, 16x16 plane without D",
        at(1, 1, four, map, 4, with_mode(flat(2), 0, 3)),
    )?;
    answer(
        rt,
        b"address 4, chroma plane without D",
        at(1, 1, four, map, 4, with_chroma(flat(2), 3)),
    )?;
    answer(
        rt,
        b"address 4, 16x16 vertical",
        at(1, 1, four, map, 4, with_mode(flat(2), 0, 0)),
    )?;
    answer(
        rt,
        b"address 3, 4x4 mode 3 in block 5 without B",
        at(0, 1, three, map, 3, with_mode(flat(0), 5, 3)),
    )?;
    answer(
        rt,
        b"address 3, 4x4 mode 3 in block 6",
        at(0, 1, three, map, 3, with_mode(flat(0), 6, 3)),
    )?;
    answer(rt, b"address 3, count 7", at(0, 1, three, map, 7, flat(0)))
}

// A neighbour that is undone, with a record that breaks another rule too.
pub(crate) fn waiting(rt: &impl Print) -> io::Result<()> {
    let one: [u16; 6] = [5, 5, 5, 5, 5, 5];
    let none: [u8; 6] = [0, 0, 0, 0, 0, 0];
    let odd: [u8; 6] = [2, 0, 0, 0, 0, 0];
    answer(
        rt,
        b"a neighbour undone, with a kind of 3",
        at(1, 0, none, one, 0, flat(3)),
    )?;
    answer(
        rt,
        b"a neighbour undone, with 4x4 mode 0 at the top",
        at(1, 0, none, one, 0, with_mode(flat(0), 0, 0)),
    )?;
    answer(
        rt,
        b"a neighbour undone, with number 32768",
        at(1, 0, none, one, 0, with_number(flat(0), 32768)),
    )?;
    answer(
        rt,
        b"a neighbour whose byte is 2, not 1",
        at(1, 0, odd, one, 0, flat(0)),
    )
}

// Each refusal at one place, that of the earliest rule where several are broken.
pub(crate) fn refusals(rt: &impl Print) -> io::Result<()> {
    let one: [u16; 6] = [5, 5, 5, 5, 5, 5];
    let none: [u8; 6] = [0, 0, 0, 0, 0, 0];
    let first: [u8; 6] = [1, 0, 0, 0, 0, 0];
    answer(rt, b"y 2", at(0, 2, none, one, 0, flat(0)))?;
    answer(
        rt,
        b"done, with a kind of 3",
        at(0, 0, first, one, 1, flat(3)),
    )?;
    answer(rt, b"kind 3", at(0, 0, none, one, 0, flat(3)))?;
    answer(
        rt,
        b"4x4 mode 9",
        at(0, 0, none, one, 0, with_mode(flat(0), 15, 9)),
    )?;
    answer(
        rt,
        b"16x16 mode 4",
        at(0, 0, none, one, 0, with_mode(flat(2), 0, 4)),
    )?;
    answer(
        rt,
        b"chroma mode 4",
        at(0, 0, none, one, 0, with_chroma(flat(0), 4)),
    )?;
    answer(
        rt,
        b"8x8 with a fifth mode",
        at(0, 0, none, one, 0, with_mode(flat(1), 4, 2)),
    )?;
    answer(
        rt,
        b"8x8 vertical in block 0 at the top",
        at(0, 0, none, one, 0, with_mode(flat(1), 0, 0)),
    )?;
    answer(
        rt,
        b"8x8 vertical in block 2",
        at(0, 0, none, one, 0, with_mode(flat(1), 2, 0)),
    )
}

// Row 1 of the 4x4 block from number `first` on comes to 20000 + v, and row 0 of an 8x8 block to 3/2 v in its first step, in range or not.
fn with_row(mut r: Record, first: usize, v: i32) -> Record {
    if first < 372 {
        if r.kind == 1 && first < 256 {
            r.numbers[first + 1] = v;
            r.numbers[first + 7] = -4000;
        } else {
            r.numbers[first + 4] = 20000;
            r.numbers[first + 5] = v;
            r.numbers[first + 12] = -12000;
        }
    }
    r
}

// The first macroblock of a picture from that record.
fn offered(record: Record) -> Result<(), Refusal> {
    at(0, 0, [0; 6], [5; 6], 0, record)
}

// The range of a block in each plane and of each kind.
pub(crate) fn ranges(rt: &impl Print) -> io::Result<()> {
    answer(rt, b"number 32735", offered(with_number(flat(0), 32735)))?;
    answer(rt, b"number 32736", offered(with_number(flat(0), 32736)))?;
    answer(rt, b"number 32768", offered(with_number(flat(0), 32768)))?;
    answer(
        rt,
        b"4x4, a row comes to 32767",
        offered(with_row(flat(0), 240, 12767)),
    )?;
    answer(
        rt,
        b"4x4, a row alone comes to 32768",
        offered(with_row(flat(0), 240, 12768)),
    )?;
    answer(
        rt,
        b"8x8, a row comes to 32767",
        offered(with_row(flat(1), 192, 21845)),
    )?;
    answer(
        rt,
        b"8x8, a row alone comes to 32769",
        offered(with_row(flat(1), 192, 21846)),
    )?;
    answer(
        rt,
        b"16x16, a row comes to 32767",
        offered(with_row(flat(2), 0, 12767)),
    )?;
    answer(
        rt,
        b"16x16, a row alone comes to 32768",
        offered(with_row(flat(2), 0, 12768)),
    )?;
    answer(
        rt,
        b"Cb, a row alone comes to 32768",
        offered(with_row(flat(2), 256, 12768)),
    )?;
    answer(
        rt,
        b"Cr of kind 1, a row alone comes to 32768",
        offered(with_row(flat(1), 368, 12768)),
    )?;
    answer(
        rt,
        b"Cr of kind 1, with a chroma mode that is not permitted",
        offered(with_chroma(with_row(flat(1), 368, 12768), 2)),
    )
}
