// The routines that never refuse a value.
use crate::case::same;
use jiwarbend::small;
use lists::{marked, numbers};

// the number, and its byte
pub(crate) fn clip_u8(c: &[u8]) -> bool {
    if c.len() != 4 {
        return false;
    }
    let mut v = [0i32; 1];
    numbers(&c[..3], &mut v);
    small::jiwarbend_clip_u8(v[0]) == c[3]
}

// the QP, and its chroma QP
pub(crate) fn chroma_qp(c: &[u8]) -> bool {
    c.len() == 2 && small::jiwarbend_chroma_qp(c[0]) == c[1]
}

// the marks of left and above, the two numbers, and the context
pub(crate) fn nc_from_neighbors(c: &[u8]) -> bool {
    if c.len() != 4 {
        return false;
    }
    let r = small::jiwarbend_nc_from_neighbors(marked(c[0], 1), c[1], marked(c[0], 2), c[2]);
    r == i32::from(c[3])
}

// 24 numbers in scan order, and in raster order
pub(crate) fn nnz_raster_from_z(c: &[u8]) -> bool {
    if c.len() != 48 {
        return false;
    }
    let mut out = [0u8; 24];
    let r = small::jiwarbend_nnz_raster_from_z(&c[..24], &mut out);
    same(r, &out, 0, &c[24..])
}
