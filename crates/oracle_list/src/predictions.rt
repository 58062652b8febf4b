// The predictors.
ghost use Rattle.std.specs.Prelude.{◌+◌, ◌≤◌};

use crate::case::same;
use jiwarbend::{intra, intra_plane};
use lists::marked;
use refusals::Refusal;

pub(crate) fn intra4x4(c: &[u8]) -> bool {
    predicted::<16, _>(c, 8, 4, intra::jiwarbend_intra4x4_pred)
}

pub(crate) fn intra8x8(c: &[u8]) -> bool {
    predicted::<64, _>(c, 16, 8, intra::jiwarbend_intra8x8_pred)
}

pub(crate) fn luma16x16(c: &[u8]) -> bool {
    predicted::<256, _>(c, 16, 16, intra::jiwarbend_luma16x16_pred)
}

pub(crate) fn chroma8x8(c: &[u8]) -> bool {
    predicted::<64, _>(c, 8, 8, intra::jiwarbend_chroma8x8_pred)
}

pub(crate) fn luma_from_plane(c: &[u8]) -> bool {
    from_plane::<256, _>(c, 300, intra_plane::jiwarbend_i16x16_luma_pred)
}

pub(crate) fn chroma_from_plane(c: &[u8]) -> bool {
    from_plane::<64, _>(c, 100, intra_plane::jiwarbend_chroma8x8_plane_pred)
}

// mode, marks, corner, answer, the samples above and to the left, and the block
fn predicted<
    const N: usize,
    F: Fn(u8, bool, bool, bool, &[u8], &[u8], u8, &mut [u8]) -> Result<(), Refusal>,
>(c: &[u8], above: usize, left: usize, call: F) -> bool
    requires fits { above + left + N ≤ 4096 }
    requires callable { F.IsAlwaysCallable call }
{
    if c.len() != 4 + above + left + N {
        return false;
    }
    let (samples, block) = c[4..].split_at(above + left);
    let (above, left) = samples.split_at(above);
    let mut out = [0u8; N];
    let answer = call(
        c[0],
        marked(c[1], 1),
        marked(c[1], 2),
        marked(c[1], 4),
        above,
        left,
        c[2],
        &mut out,
    );
    same(answer, &out, c[3], block)
}

// mode, base, stride, answer, a plane, and the block
fn from_plane<const N: usize, F: Fn(u8, &mut [u8], &[u8], usize, usize) -> Result<(), Refusal>>(
    c: &[u8],
    plane: usize,
    call: F,
) -> bool
    requires fits { plane + N ≤ 4096 }
    requires callable { F.IsAlwaysCallable call }
{
    if c.len() != 4 + plane + N {
        return false;
    }
    let (plane, block) = c[4..].split_at(plane);
    let mut out = [0u8; N];
    let answer = call(c[0], &mut out, plane, usize::from(c[1]), usize::from(c[2]));
    same(answer, &out, c[3], block)
}
