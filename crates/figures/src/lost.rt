// The first picture of `shuffled` with its second slice lost: garbled, refused or abandoned. Its first slice, the two columns to the left, has the samples of
// the sound picture each time.
ghost use Rattle.std.specs.Prelude.{◌<◌};

use super::shuffled::{Picture, RASTER, SHUFFLED, one_more, rebuild_all, tell_answers};
use super::tell::tell;
use std::io;

// Macroblock 5, the last of the second slice, never comes.
const ABANDONED: [u32; 6] = [4, 2, 4, 3, 1, 0];

pub(crate) fn lose(rt: &impl Print) -> io::Result<()> {
    let mut luma = [11u8; 1670];
    let mut cb = [12u8; 440];
    let mut cr = [13u8; 440];
    let mut done = [1u8; 6];
    rt.write_all(b"two slices, the second one sound\n")?;
    let n = rebuild_all(
        rt,
        Picture::First,
        RASTER,
        36,
        &mut luma,
        &mut cb,
        &mut cr,
        &mut done,
    )?;
    tell_answers(rt, n)?;
    lost_as(
        rt,
        b"garbled\n",
        Picture::Garbled,
        SHUFFLED,
        &luma,
        &cb,
        &cr,
    )?;
    lost_as(
        rt,
        b"refused\n",
        Picture::Unknown,
        SHUFFLED,
        &luma,
        &cb,
        &cr,
    )?;
    lost_as(
        rt,
        b"abandoned\n",
        Picture::First,
        ABANDONED,
        &luma,
        &cb,
        &cr,
    )
}

// A run with the second slice lost, and what differs from the sound picture.
fn lost_as(
    rt: &impl Print,
    what: &[u8],
    picture: Picture,
    order: [u32; 6],
    luma: &[u8],
    cb: &[u8],
    cr: &[u8],
) -> io::Result<()> {
    let mut luma2 = [201u8; 1670];
    let mut cb2 = [202u8; 440];
    let mut cr2 = [203u8; 440];
    let mut done = [0u8; 6];
    rt.write_all(what)?;
    let n = rebuild_all(
        rt, picture, order, 36, &mut luma2, &mut cb2, &mut cr2, &mut done,
    )?;
    tell_answers(rt, n)?;
    rt.write_all(b"samples that differ from the sound picture's\n")?;
    tell(
        rt,
        b"  luma of the first slice",
        differing(luma, &luma2, 0, 32, 32, 52),
    )?;
    tell(
        rt,
        b"  Cb of the first slice",
        differing(cb, &cb2, 0, 16, 16, 27),
    )?;
    tell(
        rt,
        b"  Cr of the first slice",
        differing(cr, &cr2, 0, 16, 16, 27),
    )?;
    tell(
        rt,
        b"  luma of the second slice",
        differing(luma, &luma2, 32, 48, 32, 52),
    )
}

// How many samples differ in the columns of two planes from one column to before another.
fn differing(p: &[u8], q: &[u8], from: usize, to: usize, height: usize, stride: usize) -> u32
    requires { 0 < stride }
{
    let mut n = 0;
    for (i, (a, b)) in p.iter().zip(q).enumerate() {
        let column = i % stride;
        if from <= column && column < to && i / stride < height && *a != *b {
            n = one_more(n);
        }
    }
    n
}
