// A case: a head of 6 bytes, sixteen luma modes, sizes of 12 bytes, 384 numbers, the planes before the call, and, where it is accepted, the planes after
// it. The head is the answer, x, y, the marks of A, B, C and D, the kind and the chroma mode. The sizes are the stride and the length of luma, Cb and Cr,
// two bytes each, the lower first.
ghost use Rattle.std.specs.Prelude.{◌≡◌, ◌+◌, ◌*◌};
ghost use Rattle.lists.specs.Numbers.{is_set};

use lists::{marked, read_full};
use macroblock::{Planes, RecordRef, Strides};
use maps::neighbours::Marks;
use refusals::number_of;
use std::io;
use std::io::Read;

// The samples of three planes, at the start of rooms for them.
#[derive(Clone, Copy, PartialEq, Eq)]
struct Rooms {
    luma: [u8; 2048],
    cb: [u8; 512],
    cr: [u8; 512],
}

// How far apart the rows of each plane stand, and how long it is.
#[derive(Clone, Copy)]
struct Sizes {
    strides: Strides,
    luma: usize,
    cb: usize,
    cr: usize,
}

// Whether the port gives the next case's answer and leaves every byte of the planes as the list has it. A refused call leaves them as they were.
pub(crate) fn next_agrees(input: &mut impl Read) -> io::Result<bool> {
    let mut head = [0u8; 6];
    let mut modes = [0u8; 16];
    let mut lengths = [0u8; 12];
    let mut bytes = [0u8; 1152];
    read_full(input, &mut head)?;
    read_full(input, &mut modes)?;
    read_full(input, &mut lengths)?;
    read_full(input, &mut bytes)?;
    let sizes = sizes_of(&lengths);
    let mut planes = Rooms {
        luma: [0; 2048],
        cb: [0; 512],
        cr: [0; 512],
    };
    if !read(input, sizes, &mut planes)? {
        return Ok(false);
    }
    let mut after = planes;
    if head[0] == 0 && !read(input, sizes, &mut after)? {
        return Ok(false);
    }
    let mut numbers = [0i32; 384];
    lists::numbers(&bytes, &mut numbers);
    let rec = RecordRef {
        kind: head[4],
        modes: &modes,
        chroma_mode: head[5],
        numbers: &numbers,
    };
    let answer = rebuild(&head, sizes, rec, &mut planes);
    Ok(answer == Some(u32::from(head[0])) && planes == after)
}

fn sizes_of(b: &[u8; 12]) -> Sizes {
    let strides = Strides {
        luma: two(b[0], b[1]),
        cb: two(b[4], b[5]),
        cr: two(b[8], b[9]),
    };
    Sizes {
        strides,
        luma: two(b[2], b[3]),
        cb: two(b[6], b[7]),
        cr: two(b[10], b[11]),
    }
}

// Reads three planes of these lengths, and tells whether they had room and were there.
fn read(input: &mut impl Read, sizes: Sizes, rooms: &mut Rooms) -> io::Result<bool> {
    Ok(
        read_plane(input, sizes.luma, &mut rooms.luma)?
            && read_plane(input, sizes.cb, &mut rooms.cb)?
            && read_plane(input, sizes.cr, &mut rooms.cr)?,
    )
}

fn read_plane(input: &mut impl Read, len: usize, room: &mut [u8]) -> io::Result<bool> {
    Ok(len <= room.len() && read_full(input, &mut room[..len])? == len)
}

// The port's answer on planes as long as the sizes say, where there is room for them.
fn rebuild(head: &[u8; 6], sizes: Sizes, rec: RecordRef, rooms: &mut Rooms) -> Option<u32> {
    let mut planes = Planes {
        luma: rooms.luma.get_mut(..sizes.luma)?,
        cb: rooms.cb.get_mut(..sizes.cb)?,
        cr: rooms.cr.get_mut(..sizes.cr)?,
        strides: sizes.strides,
    };
    let x = u32::from(head[1]);
    let y = u32::from(head[2]);
    let answer = macroblock::rebuild(x, y, &mut planes, marks(head[3]), true, rec);
    Some(number_of(answer))
}

// The marks of A, B, C and D, which are the bits of a byte.
fn marks(bits: u8) -> Marks
    ensures { (result.a ≡ is_set 1 bits) × (result.b ≡ is_set 2 bits) × (result.c ≡ is_set 4 bits) × (result.d ≡ is_set 8 bits) }
{
    Marks {
        a: marked(bits, 1),
        b: marked(bits, 2),
        c: marked(bits, 4),
        d: marked(bits, 8),
    }
}

// A number of two bytes.
fn two(low: u8, high: u8) -> usize
    ensures { result ≡ low + 256 * high }
{
    usize::from(low) + 256 * usize::from(high)
}
