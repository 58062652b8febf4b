// Whole pictures, macroblock by macroblock. C's progress record is its two numbers, one after the other; it is stored only where the call is not refused.
ghost use Rattle.std.specs.Prelude.{◌≡◌, length, replicate};
ghost use Rattle.laws.specs.Answer.{written};
ghost use Rattle.refusals.specs.Refusal.{number_of};
ghost use Rattle.macroblock.specs.Kinds.{record_of};
ghost use Rattle.maps.specs.Progress.{begun, progress_of, start_answer};
ghost use Rattle.calls.specs.AnyOrder.{AnyOrder};
ghost use Rattle.calls.specs.Rebuild.{call, lent, Rebuilds};
ghost use Rattle.calls.specs.Run.{Picture};
ghost use Rattle.slices.specs.SlicesApart.{SlicesApart};

use macroblock::{Planes, RecordRef, Strides};
use maps::progress::start_core;
use maps::size::Spot;
use refusals::Refusal;

pub fn jiwarbend_start(
    w: u32,
    h: u32,
    done: &mut [u8],
    progress: &mut [u32; 2],
) -> Result<(), Refusal>
    ensures value { number_of result ≡ start_answer w h (length done.old) }
    ensures progress_after { progress_of progress.new ≡ written (number_of result) (progress_of progress.old) begun }
    ensures done_after { done.new ≡ written (number_of result) done.old (replicate (length done.old) 0) }
{
    *progress = <[u32; 2]>::from(start_core(w, h, done)?);
    Ok(())
}

// In whatever order the macroblocks come, a finished picture is the right one, and it can always be finished; a lost slice does not spoil the others.
pub fn jiwarbend_rebuild(
    w: u32,
    h: u32,
    x: u32,
    y: u32,
    luma: &mut [u8],
    luma_stride: usize,
    cb: &mut [u8],
    cb_stride: usize,
    cr: &mut [u8],
    cr_stride: usize,
    done: &mut [u8],
    slices: &[u16],
    progress: &mut [u32; 2],
    kind: u8,
    modes: &[u8],
    chroma_mode: u8,
    numbers: &[i32],
) -> Result<(), Refusal>
    ensures rebuilds { Rebuilds
        (call (record { w = w; h = h; x = x; y = y }) (record { luma = luma_stride; cb = cb_stride; cr = cr_stride })
        slices.now (record_of kind modes.now chroma_mode numbers.now))
        (lent luma.old cb.old cr.old done.old (progress_of progress.old))
        (number_of result) (lent luma.new cb.new cr.new done.new (progress_of progress.new)) }
    ensures any_order { (g : Picture) → AnyOrder g }
    ensures slices_apart { SlicesApart }
{
    let spot = Spot { w, h, x, y };
    let strides = Strides {
        luma: luma_stride,
        cb: cb_stride,
        cr: cr_stride,
    };
    let mut planes = Planes {
        luma,
        cb,
        cr,
        strides,
    };
    let rec = RecordRef {
        kind,
        modes,
        chroma_mode,
        numbers,
    };
    picture::rebuild(spot, &mut planes, done, slices, progress, rec)
}
