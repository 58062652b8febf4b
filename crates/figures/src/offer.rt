// A macroblock offered to a picture: the planes and the record are taken apart here, for the call takes their parts.
use jiwarbend::pictures::jiwarbend_rebuild;
use macroblock::{Planes, Record};
use maps::size::Spot;
use refusals::Refusal;

pub(crate) fn offer(
    spot: Spot,
    planes: Planes,
    done: &mut [u8],
    slices: &[u16],
    progress: &mut [u32; 2],
    record: Record,
) -> Result<(), Refusal> {
    let Planes {
        luma,
        cb,
        cr,
        strides,
    } = planes;
    let Record {
        kind,
        modes,
        chroma_mode,
        numbers,
    } = record;
    jiwarbend_rebuild(
        spot.w,
        spot.h,
        spot.x,
        spot.y,
        luma,
        strides.luma,
        cb,
        strides.cb,
        cr,
        strides.cr,
        done,
        slices,
        progress,
        kind,
        &modes,
        chroma_mode,
        &numbers,
    )
}
