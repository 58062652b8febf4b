// The limits of the calls on one block.
use super::tell::answer;
use refusals::Refusal;
use residual::reconstruct::{Window, add_residual};
use std::io;

// A lone coefficient put over a prediction of zeros, in a plane of 12292 bytes: just room for four rows of four at a stride of 4096.
fn put(from: Window, to: Window) -> Result<(), Refusal> {
    let deq = [0i32; 16];
    let pred = [0u8; 12292];
    let mut rec = [0u8; 12292];
    residual::reconstruct::reconstruct_4x4_into(&deq, &pred, from, &mut rec, to)
}

fn window(off: usize, stride: usize) -> Window {
    Window { off, stride }
}

pub(crate) fn strides(rt: &impl Print) -> io::Result<()> {
    answer(
        rt,
        b"reconstruct_4x4_into, written stride 3",
        put(window(0, 4), window(0, 3)),
    )?;
    answer(
        rt,
        b"reconstruct_4x4_into, written stride 4",
        put(window(0, 4), window(0, 4)),
    )?;
    answer(
        rt,
        b"reconstruct_4x4_into, written stride 4096",
        put(window(0, 4), window(0, 4096)),
    )?;
    answer(
        rt,
        b"reconstruct_4x4_into, written stride 4097",
        put(window(0, 4), window(0, 4097)),
    )?;
    answer(
        rt,
        b"reconstruct_4x4_into, prediction stride 0",
        put(window(0, 0), window(0, 4)),
    )?;
    answer(
        rt,
        b"reconstruct_4x4_into, prediction stride 4096",
        put(window(0, 4096), window(0, 4)),
    )?;
    answer(
        rt,
        b"reconstruct_4x4_into, prediction stride 4097",
        put(window(0, 4097), window(0, 4)),
    )
}

pub(crate) fn places(rt: &impl Print) -> io::Result<()> {
    answer(
        rt,
        b"reconstruct_4x4_into, four rows that end with the plane",
        put(window(0, 4), window(12276, 4)),
    )?;
    answer(
        rt,
        b"reconstruct_4x4_into, one byte further",
        put(window(0, 4), window(12277, 4)),
    )?;
    answer(
        rt,
        b"reconstruct_4x4_into, the largest offset",
        put(window(0, 4), window(18446744073709551615, 4)),
    )?;
    answer(
        rt,
        b"reconstruct_4x4_into, a prediction at the largest offset",
        put(window(18446744073709551615, 0), window(0, 4)),
    )
}

// One number among zeros, as a residual, a prediction and a flat residual.
fn residual(v: i32) -> Result<[u8; 64], Refusal> {
    let mut res = [0i32; 64];
    res[63] = v;
    add_residual(&res, &[0i32; 64])
}

fn prediction(v: i32) -> Result<[u8; 16], Refusal> {
    let mut pred = [0i32; 16];
    pred[0] = v;
    add_residual(&[0i32; 16], &pred)
}

fn flat(v: i32) -> Result<(), Refusal> {
    let pred = [0u8; 16];
    let mut rec = [0u8; 16];
    let whole = window(0, 4);
    residual::reconstruct::reconstruct_4x4_dc_into(v, &pred, whole, &mut rec, whole)
}

pub(crate) fn numbers(rt: &impl Print) -> io::Result<()> {
    answer(rt, b"add_residual_8x8, residual 32767", residual(32767))?;
    answer(rt, b"add_residual_8x8, residual 32768", residual(32768))?;
    answer(
        rt,
        b"add_residual_4x4, prediction -32768",
        prediction(-32768),
    )?;
    answer(
        rt,
        b"add_residual_4x4, prediction -32769",
        prediction(-32769),
    )?;
    answer(
        rt,
        b"reconstruct_4x4_dc_into, flat residual 32767",
        flat(32767),
    )?;
    answer(
        rt,
        b"reconstruct_4x4_dc_into, flat residual 32768",
        flat(32768),
    )
}

// 16x16 luma read from a plane of 65552 bytes at a stride; the block's first sample follows the corner by a row and a column.
fn luma(mode: u8, stride: usize, base: usize) -> Result<(), Refusal> {
    let rec = [0u8; 65552];
    let mut pred = [0u8; 256];
    samples::intra_plane::i16x16_luma_pred(mode, &mut pred, &rec, base, stride)
}

fn chroma(mode: u8) -> Result<(), Refusal> {
    let rec = [0u8; 96];
    let mut pred = [0u8; 64];
    samples::intra_plane::chroma8x8_pred(mode, &mut pred, &rec, 10, 9)
}

fn lent_255() -> Result<(), Refusal> {
    let rec = [0u8; 512];
    let mut pred = [0u8; 255];
    samples::intra_plane::i16x16_luma_pred(0, &mut pred, &rec, 18, 17)
}

pub(crate) fn plane_forms(rt: &impl Print) -> io::Result<()> {
    answer(rt, b"i16x16_luma_pred, stride 0", luma(0, 0, 18))?;
    answer(rt, b"i16x16_luma_pred, stride 1", luma(0, 1, 18))?;
    answer(rt, b"i16x16_luma_pred, stride 4096", luma(0, 4096, 4097))?;
    answer(rt, b"i16x16_luma_pred, stride 4097", luma(0, 4097, 4098))?;
    answer(
        rt,
        b"i16x16_luma_pred, base at the stride: no corner",
        luma(2, 17, 17),
    )?;
    answer(
        rt,
        b"i16x16_luma_pred, the largest base",
        luma(2, 17, 18446744073709551615),
    )?;
    answer(rt, b"i16x16_luma_pred, mode 4", luma(4, 17, 18))?;
    answer(rt, b"i16x16_luma_pred, 255 bytes lent", lent_255())?;
    answer(rt, b"chroma8x8_pred from a plane, mode 1", chroma(1))?;
    answer(rt, b"chroma8x8_pred from a plane, mode 2", chroma(2))?;
    answer(rt, b"chroma8x8_pred from a plane, mode 4", chroma(4))
}
