// Pictures of 3 by 2 macroblocks, each rebuilt in raster order and in another one, over planes that held different bytes. The first has two slices, and
// both of its orders come round six times. The second has one slice, vertical macroblocks in its second row, and an order that comes once and in which
// some of these stand between neighbours that are not done. Luma is 48 by 32 with stride 52, chroma 24 by 16 with stride 27; every other byte is padding.
ghost use Rattle.std.specs.Prelude.{◌<◌, ◌≤◌};

use super::offer::offer;
use super::tell::tell;
use jiwarbend::pictures::jiwarbend_start;
use macroblock::{Planes, Record, Strides};
use maps::size::Spot;
use refusals::Refusal;
use std::io;

const SLICES: [u16; 6] = [0, 0, 1, 0, 0, 1];

pub(crate) const RASTER: [u32; 6] = [0, 1, 2, 3, 4, 5];

pub(crate) const SHUFFLED: [u32; 6] = [4, 2, 5, 3, 1, 0];

// Macroblock 4 comes after B alone, and before A, its left neighbour 3, and C, 2; macroblock 3 before C.
const DOWNWARDS: [u32; 6] = [0, 1, 4, 3, 2, 5];

// By address: the kind, the mode of a 16x16 macroblock, and the chroma mode.
const MACROBLOCKS: [(u8, u8, u8); 6] = [
    (0, 2, 0),
    (1, 2, 1),
    (0, 2, 0),
    (2, 0, 2),
    (2, 3, 3),
    (1, 2, 2),
];

// Whether block k of sixteen has blocks of its own macroblock above it and to its left, so that it may use every mode.
const INNER: [bool; 16] = [
    false, false, false, true, false, false, true, true, false, true, false, true, true, true,
    true, true,
];

// The mode of block k of macroblock a.
fn mode_of(a: usize, k: usize) -> u8 {
    if a >= 6 || k >= 16 {
        return 0;
    }
    let (kind, whole, _) = MACROBLOCKS[a];
    match (kind, k) {
        (0, _) if INNER[k] => ((5 * k + a) % 9) as u8,
        (0, _) | (1, 0..=2) => 2,
        (1, 3) => (a + 3) as u8,
        (2, 0) => whole,
        _ => 0,
    }
}

// Number i of macroblock a: small ones of either sign, and a larger first coefficient in each block.
const SMALL: [i32; 7] = [-30, 17, 3, -8, 25, -1, 9];

const LARGE: [i32; 5] = [-640, 320, 900, -210, 75];

fn number_of(a: usize, i: usize) -> i32 {
    if i % 16 == 0 {
        return LARGE[(a % 5 + i / 16) % 5];
    }
    SMALL[(a % 7 + i % 7) % 7]
}

fn modes_of(a: usize) -> [u8; 16] {
    let mut modes = [0u8; 16];
    for (k, mode) in modes.iter_mut().enumerate() {
        *mode = mode_of(a, k);
    }
    modes
}

fn numbers_of(a: usize) -> [i32; 384] {
    let mut numbers = [0i32; 384];
    for (i, number) in numbers.iter_mut().enumerate() {
        *number = number_of(a, i);
    }
    numbers
}

fn record_of(a: usize) -> Record {
    let (kind, _, chroma_mode) = MACROBLOCKS.get(a).copied().unwrap_or((2, 0, 0));
    Record {
        kind,
        modes: modes_of(a),
        chroma_mode,
        numbers: numbers_of(a),
    }
}

// The record of macroblock a of the second picture: DC in its first row, and vertical below.
fn vertical_record_of(a: usize) -> Record {
    let mut modes = [0u8; 16];
    let mut chroma_mode = 2;
    if a < 3 {
        modes[0] = 2;
        chroma_mode = 0;
    }
    Record {
        kind: 2,
        modes,
        chroma_mode,
        numbers: numbers_of(a),
    }
}

// A record of a kind that there is not.
fn unknown_record_of(a: usize) -> Record {
    Record {
        kind: 3,
        modes: modes_of(a),
        chroma_mode: 0,
        numbers: numbers_of(a),
    }
}

// The pictures: the first and the second, and the first with other records for its second slice, which is its last column: those of the second picture,
// or of an unknown kind.
#[derive(Clone, Copy, PartialEq, Eq)]
pub(crate) enum Picture {
    First,
    Second,
    Garbled,
    Unknown,
}

// The slice map of a picture, and the record that comes for macroblock a.
fn slices_of(picture: Picture) -> [u16; 6] {
    match picture {
        Picture::Second => [0u16; 6],
        _ => SLICES,
    }
}

fn offered(picture: Picture, a: usize) -> Record {
    match picture {
        Picture::Second => vertical_record_of(a),
        Picture::Garbled if a % 3 == 2 => vertical_record_of(a),
        Picture::Unknown if a % 3 == 2 => unknown_record_of(a),
        _ => record_of(a),
    }
}

// How often each answer was given.
#[derive(Clone, Copy, Default)]
pub(crate) struct Answers {
    accepted: u32,
    done: u32,
    not_ready: u32,
    other: u32,
}

impl Answers {
    fn count(&mut self, answer: Result<(), Refusal>) {
        let n = match answer {
            Ok(()) => &mut self.accepted,
            Err(Refusal::Done) => &mut self.done,
            Err(Refusal::NotReady) => &mut self.not_ready,
            Err(_) => &mut self.other,
        };
        *n = one_more(*n);
    }
}

pub(crate) fn one_more(n: u32) -> u32 {
    n.wrapping_add(1)
}

// The answers to so many offers of one of the pictures in an order that comes round, each macroblock with its own record.
pub(crate) fn rebuild_all(
    rt: &impl Print,
    picture: Picture,
    order: [u32; 6],
    offers: usize,
    luma: &mut [u8],
    cb: &mut [u8],
    cr: &mut [u8],
    done: &mut [u8],
) -> io::Result<Answers>
    requires { offers ≤ 36 }
{
    let mut n = Answers::default();
    let mut progress = [9u32; 2];
    let _ = jiwarbend_start(3, 2, done, &mut progress);
    let strides = Strides {
        luma: 52,
        cb: 27,
        cr: 27,
    };
    let slices = slices_of(picture);
    for a in order.into_iter().cycle().take(offers) {
        let planes = Planes {
            luma,
            cb,
            cr,
            strides,
        };
        let spot = Spot {
            w: 3,
            h: 2,
            x: a % 3,
            y: a / 3,
        };
        let record = offered(picture, a as usize);
        n.count(offer(spot, planes, done, &slices, &mut progress, record));
    }
    tell(rt, b"  counted", progress[0])?;
    Ok(n)
}

pub(crate) fn tell_answers(rt: &impl Print, n: Answers) -> io::Result<()> {
    tell(rt, b"  accepted", n.accepted)?;
    tell(rt, b"  refused as done", n.done)?;
    tell(rt, b"  refused as not ready", n.not_ready)?;
    tell(rt, b"  refused otherwise", n.other)
}

// The bytes of a picture in which two planes differ, and those of the padding in which one of them is not what it was before.
#[derive(Default, Drop)]
struct Differing {
    samples: u32,
    padding: u32,
}

fn compared(
    p: &[u8],
    was_p: u8,
    q: &[u8],
    was_q: u8,
    width: usize,
    height: usize,
    stride: usize,
) -> Differing
    requires { 0 < stride }
{
    let mut d = Differing::default();
    for (i, (a, b)) in p.iter().zip(q).enumerate() {
        if i % stride < width && i / stride < height {
            if *a != *b {
                d.samples = one_more(d.samples);
            }
        } else {
            if *a != was_p {
                d.padding = one_more(d.padding);
            }
            if *b != was_q {
                d.padding = one_more(d.padding);
            }
        }
    }
    d
}

fn tell_differing(rt: &impl Print, d: Differing) -> io::Result<()> {
    tell(rt, b"  samples that differ", d.samples)?;
    tell(rt, b"  padding bytes that changed", d.padding)
}

// The first picture, and the second.
pub(crate) fn compare(rt: &impl Print) -> io::Result<()> {
    rt.write_all(b"two slices, six rounds\n")?;
    both_orders(rt, Picture::First, SHUFFLED, 36)?;
    rt.write_all(b"one slice, vertical macroblocks below DC, one round\n")?;
    both_orders(rt, Picture::Second, DOWNWARDS, 6)
}

// A picture in raster order, and then in another one.
fn both_orders(rt: &impl Print, picture: Picture, order: [u32; 6], offers: usize) -> io::Result<()>
    requires { offers ≤ 36 }
{
    let mut luma = [11u8; 1670];
    let mut cb = [12u8; 440];
    let mut cr = [13u8; 440];
    let mut done = [1u8; 6];
    rt.write_all(b"raster order\n")?;
    let n = rebuild_all(
        rt, picture, RASTER, offers, &mut luma, &mut cb, &mut cr, &mut done,
    )?;
    tell_answers(rt, n)?;
    shuffle(rt, picture, order, offers, &luma, &cb, &cr)
}

// The other run, and what differs.
fn shuffle(
    rt: &impl Print,
    picture: Picture,
    order: [u32; 6],
    offers: usize,
    luma: &[u8],
    cb: &[u8],
    cr: &[u8],
) -> io::Result<()>
    requires { offers ≤ 36 }
{
    let mut luma2 = [201u8; 1670];
    let mut cb2 = [202u8; 440];
    let mut cr2 = [203u8; 440];
    let mut done = [0u8; 6];
    rt.write_all(b"another order\n")?;
    let n = rebuild_all(
        rt, picture, order, offers, &mut luma2, &mut cb2, &mut cr2, &mut done,
    )?;
    tell_answers(rt, n)?;
    rt.write_all(b"luma of the two\n")?;
    tell_differing(rt, compared(luma, 11, &luma2, 201, 48, 32, 52))?;
    rt.write_all(b"Cb of the two\n")?;
    tell_differing(rt, compared(cb, 12, &cb2, 202, 24, 16, 27))?;
    rt.write_all(b"Cr of the two\n")?;
    tell_differing(rt, compared(cr, 13, &cr2, 203, 24, 16, 27))
}
