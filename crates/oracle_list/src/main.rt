// Replays a fixed list of the Rust's answers (README.md says how it was made): each part of the list is a routine's, and each line of the
// output says how many cases it had and in how many of them the port's answer is another one. The last two parts hold a wrong byte and a wrong number
// on purpose: their lines say that one case differs.
#![tactic(auto)]

mod case;
mod predictions;
mod small;
mod sums;

use lists::part;
use std::io;

// Each part with its name, the bytes of a case, and what judges a case.
fn main(rt: HostRuntime) -> io::Result<()> {
    let mut list = rt.reader();
    part(&rt, &mut list, b"clip_u8", 4, small::clip_u8)?;
    part(&rt, &mut list, b"chroma_qp", 2, small::chroma_qp)?;
    part(
        &rt,
        &mut list,
        b"nc_from_neighbors",
        4,
        small::nc_from_neighbors,
    )?;
    part(
        &rt,
        &mut list,
        b"nnz_raster_from_z",
        48,
        small::nnz_raster_from_z,
    )?;
    part(&rt, &mut list, b"intra4x4_pred", 32, predictions::intra4x4)?;
    part(&rt, &mut list, b"intra8x8_pred", 92, predictions::intra8x8)?;
    part(
        &rt,
        &mut list,
        b"luma16x16_pred",
        292,
        predictions::luma16x16,
    )?;
    part(
        &rt,
        &mut list,
        b"chroma8x8_pred",
        84,
        predictions::chroma8x8,
    )?;
    part(
        &rt,
        &mut list,
        b"i16x16_luma_pred",
        560,
        predictions::luma_from_plane,
    )?;
    part(
        &rt,
        &mut list,
        b"chroma8x8_plane_pred",
        168,
        predictions::chroma_from_plane,
    )?;
    part(&rt, &mut list, b"inverse_4x4", 97, sums::inverse)?;
    part(&rt, &mut list, b"reconstruct_4x4", 113, sums::reconstruct)?;
    part(&rt, &mut list, b"add_residual_4x4", 113, sums::add_4x4)?;
    part(&rt, &mut list, b"add_residual_8x8", 449, sums::add_8x8)?;
    part(
        &rt,
        &mut list,
        b"reconstruct_4x4_into",
        213,
        sums::reconstruct_into,
    )?;
    part(
        &rt,
        &mut list,
        b"reconstruct_4x4_dc_into",
        168,
        sums::flat_into,
    )?;
    part(
        &rt,
        &mut list,
        b"add_residual_4x4_into",
        213,
        sums::add_into,
    )?;
    part(
        &rt,
        &mut list,
        b"a wrong byte, on purpose",
        32,
        predictions::intra4x4,
    )?;
    part(
        &rt,
        &mut list,
        b"a wrong number, on purpose",
        97,
        sums::inverse,
    )
}
