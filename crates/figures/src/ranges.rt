// The ends of the range that 8.5.12.2 and 8.5.13.2 demand of coefficients and of the values on the way to their residuals, each on both sides: a coefficient
// alone at place 0, and blocks whose coefficients are in range and of which a value leaves it in the rows alone, in the columns, or at the very end.
use super::tell::answer;
use refusals::Refusal;
use residual::inverse::inverse_4x4;
use residual::reconstruct::{Window, reconstruct_4x4, reconstruct_4x4_into};
use std::io;
use transform_8x8::inverse::inverse_8x8;

// A block of zeros but for these coefficients, each at its place.
fn block<const N: usize>(coefficients: &[(usize, i32)]) -> [i32; N] {
    let mut deq = [0i32; N];
    for (place, v) in coefficients {
        if *place < N {
            deq[*place] = *v;
        }
    }
    deq
}

// Alone at place 0.
fn alone_4x4(v: i32) -> [i32; 16] {
    block(&[(0, v)])
}

fn alone_8x8(v: i32) -> [i32; 64] {
    block(&[(0, v)])
}

pub(crate) fn alone(rt: &impl Print) -> io::Result<()> {
    answer(
        rt,
        b"inverse_4x4, coefficient 32735 at place 0",
        inverse_4x4(&alone_4x4(32735)),
    )?;
    answer(
        rt,
        b"inverse_4x4, coefficient 32736 at place 0",
        inverse_4x4(&alone_4x4(32736)),
    )?;
    answer(
        rt,
        b"inverse_4x4, coefficient -32768 at place 0",
        inverse_4x4(&alone_4x4(-32768)),
    )?;
    answer(
        rt,
        b"inverse_4x4, coefficient -32769 at place 0",
        inverse_4x4(&alone_4x4(-32769)),
    )?;
    answer(
        rt,
        b"inverse_8x8, coefficient 32735 at place 0",
        inverse_8x8(&alone_8x8(32735)),
    )?;
    answer(
        rt,
        b"inverse_8x8, coefficient 32736 at place 0",
        inverse_8x8(&alone_8x8(32736)),
    )?;
    answer(
        rt,
        b"inverse_8x8, coefficient -32768 at place 0",
        inverse_8x8(&alone_8x8(-32768)),
    )?;
    answer(
        rt,
        b"inverse_8x8, coefficient -32769 at place 0",
        inverse_8x8(&alone_8x8(-32769)),
    )
}

// A 4x4 block's row 1 comes to 20000 + v, of which row 3 takes some back in the columns; its column 0 comes to 20000 + v in both steps, or in the second.
fn row_4x4(v: i32) -> Result<[i32; 16], Refusal> {
    inverse_4x4(&block(&[(4, 20000), (5, v), (12, -12000)]))
}

fn column_4x4(v: i32) -> Result<[i32; 16], Refusal> {
    inverse_4x4(&block(&[(0, 20000), (8, v)]))
}

fn end_4x4(v: i32) -> Result<[i32; 16], Refusal> {
    inverse_4x4(&block(&[(0, 20000), (4, v)]))
}

// An 8x8 block's row 0, or its column 0, comes to 3/2 v in the first step and to less in the later ones; its column 0 comes to 20000 + 3/2 v at the end.
fn row_8x8(v: i32) -> Result<[i32; 64], Refusal> {
    inverse_8x8(&block(&[(1, v), (7, -4000)]))
}

fn column_8x8(v: i32) -> Result<[i32; 64], Refusal> {
    inverse_8x8(&block(&[(8, v), (56, -4000)]))
}

fn end_8x8(v: i32) -> Result<[i32; 64], Refusal> {
    inverse_8x8(&block(&[(0, 20000), (8, v)]))
}

pub(crate) fn halfway(rt: &impl Print) -> io::Result<()> {
    answer(rt, b"inverse_4x4, a row comes to 32767", row_4x4(12767))?;
    answer(
        rt,
        b"inverse_4x4, a row alone comes to 32768",
        row_4x4(12768),
    )?;
    answer(
        rt,
        b"inverse_4x4, a column and its end come to 38000",
        column_4x4(18000),
    )?;
    answer(rt, b"inverse_4x4, an end comes to 32735", end_4x4(12735))?;
    answer(
        rt,
        b"inverse_4x4, an end alone comes to 32736",
        end_4x4(12736),
    )?;
    answer(rt, b"inverse_8x8, a row comes to 32767", row_8x8(21845))?;
    answer(
        rt,
        b"inverse_8x8, a row alone comes to 32769",
        row_8x8(21846),
    )?;
    answer(
        rt,
        b"inverse_8x8, a column comes to 32767",
        column_8x8(21845),
    )?;
    answer(
        rt,
        b"inverse_8x8, a column alone comes to 32769",
        column_8x8(21846),
    )?;
    answer(rt, b"inverse_8x8, an end comes to 32735", end_8x8(8490))?;
    answer(
        rt,
        b"inverse_8x8, an end alone comes to 32736",
        end_8x8(8491),
    )
}

// The same limit of the calls that add a prediction.
fn sum(v: i32) -> Result<[u8; 16], Refusal> {
    reconstruct_4x4(&alone_4x4(v), &[0i32; 16])
}

fn put(v: i32) -> Result<(), Refusal> {
    let pred = [0u8; 16];
    let mut rec = [0u8; 16];
    let whole = Window { off: 0, stride: 4 };
    reconstruct_4x4_into(&alone_4x4(v), &pred, whole, &mut rec, whole)
}

pub(crate) fn sums(rt: &impl Print) -> io::Result<()> {
    answer(rt, b"reconstruct_4x4, coefficient 32735", sum(32735))?;
    answer(rt, b"reconstruct_4x4, coefficient 32736", sum(32736))?;
    answer(rt, b"reconstruct_4x4_into, coefficient 32735", put(32735))?;
    answer(rt, b"reconstruct_4x4_into, coefficient 32736", put(32736))
}
