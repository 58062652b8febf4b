// The routines that never refuse a value.
ghost use Rattle.std.specs.Prelude.{◌≡◌, false, [], ◌∷◌, pos};
ghost use Rattle.laws.specs.Answer.{◌unless◌, answer, written};
ghost use Rattle.refusals.specs.Refusal.{number_of};
ghost use Rattle.basics.specs.Clip.{Clip1};
ghost use Rattle.basics.specs.Marks.{mode_set, permitted_nxn, permitted16x16, permitted_chroma};
ghost use Rattle.basics.specs.Nnz.{n_c, in_raster};
ghost use Rattle.basics.specs.Qp.{QPc};
ghost use Rattle.reads.specs.Exactly.{Exactly, luma4x4, luma8x8, luma16x16, chroma8x8};
ghost use Rattle.reads.specs.Groups.{marked, group_set, reads4x4, reads8x8, reads16x16, reads_chroma};
ghost use Rattle.jiwarbend.specs.Exports.{◌has◌, neighbor};

use super::sides::{four, three};
use reads::groups::{Chroma8x8, Luma4x4, Luma8x8, Luma16x16, Predictor};
use refusals::Refusal;

pub fn jiwarbend_clip_u8(v: i32) -> u8
    ensures { result ≡ Clip1 v }
{
    basics::clip::clip_u8(v)
}

pub fn jiwarbend_chroma_qp(qp: u8) -> u8
    ensures { result ≡ QPc qp }
{
    basics::qp::chroma_qp(basics::qp::LumaQp(qp)).0
}

pub fn jiwarbend_nc_from_neighbors(has_a: bool, a: u8, has_b: bool, b: u8) -> i32
    ensures { result ≡ pos (n_c (neighbor has_a a) (neighbor has_b b)) }
{
    basics::nnz::nc_from_neighbors(has_a.then_some(a), has_b.then_some(b))
}

pub fn jiwarbend_nnz_raster_from_z(n: &[u8], out: &mut [u8]) -> Result<(), Refusal>
    ensures value { number_of result ≡ answer (2 unless n.now has 24 ∷ 2 unless out.old has 24 ∷ []) }
    ensures out_after { out.new ≡ written (number_of result) out.old (in_raster n.now) }
{
    basics::nnz::nnz_raster_from_z(n, out)
}

pub fn jiwarbend_permitted_4x4(avail_top: bool, avail_left: bool, avail_corner: bool) -> u16
    ensures { result ≡ mode_set 9 (permitted_nxn avail_top avail_left avail_corner) }
{
    basics::marks::permitted_nxn(three(avail_top, avail_left, avail_corner))
}

pub fn jiwarbend_permitted_8x8(avail_top: bool, avail_left: bool, avail_corner: bool) -> u16
    ensures { result ≡ mode_set 9 (permitted_nxn avail_top avail_left avail_corner) }
{
    basics::marks::permitted_nxn(three(avail_top, avail_left, avail_corner))
}

pub fn jiwarbend_permitted_16x16(avail_top: bool, avail_left: bool, avail_corner: bool) -> u16
    ensures { result ≡ mode_set 4 (permitted16x16 avail_top avail_left avail_corner) }
{
    basics::marks::permitted_16x16(three(avail_top, avail_left, avail_corner))
}

pub fn jiwarbend_permitted_chroma(avail_top: bool, avail_left: bool, avail_corner: bool) -> u16
    ensures { result ≡ mode_set 4 (permitted_chroma avail_top avail_left avail_corner) }
{
    basics::marks::permitted_chroma(three(avail_top, avail_left, avail_corner))
}

pub fn jiwarbend_reads_4x4(
    mode: u8,
    avail_top: bool,
    avail_left: bool,
    avail_corner: bool,
    avail_right: bool,
) -> u8
    ensures value { result ≡ group_set (reads4x4 (marked avail_top avail_left avail_corner avail_right) mode) }
    ensures exactly { Exactly luma4x4 }
{
    Luma4x4::reads(mode, four(avail_top, avail_left, avail_corner, avail_right))
}

pub fn jiwarbend_reads_8x8(
    mode: u8,
    avail_top: bool,
    avail_left: bool,
    avail_corner: bool,
    avail_right: bool,
) -> u8
    ensures value { result ≡ group_set (reads8x8 (marked avail_top avail_left avail_corner avail_right) mode) }
    ensures exactly { Exactly luma8x8 }
{
    Luma8x8::reads(mode, four(avail_top, avail_left, avail_corner, avail_right))
}

pub fn jiwarbend_reads_16x16(mode: u8, avail_top: bool, avail_left: bool, avail_corner: bool) -> u8
    ensures value { result ≡ group_set (reads16x16 (marked avail_top avail_left avail_corner false) mode) }
    ensures exactly { Exactly luma16x16 }
{
    Luma16x16::reads(mode, three(avail_top, avail_left, avail_corner))
}

pub fn jiwarbend_reads_chroma(mode: u8, avail_top: bool, avail_left: bool, avail_corner: bool) -> u8
    ensures value { result ≡ group_set (reads_chroma (marked avail_top avail_left avail_corner false) mode) }
    ensures exactly { Exactly chroma8x8 }
{
    Chroma8x8::reads(mode, three(avail_top, avail_left, avail_corner))
}
