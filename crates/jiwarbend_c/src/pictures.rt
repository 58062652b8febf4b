// Whole pictures for C, macroblock by macroblock. The progress record is its two numbers, one after the other.
ghost use Rattle.std.specs.Prelude.{◌≡◌, length, replicate};
ghost use Rattle.laws.specs.Answer.{written};
ghost use Rattle.macroblock.specs.Kinds.{record_of};
ghost use Rattle.maps.specs.Progress.{begun, progress_of, start_answer};
ghost use Rattle.calls.specs.AnyOrder.{AnyOrder};
ghost use Rattle.calls.specs.Rebuild.{call, lent, Rebuilds};
ghost use Rattle.calls.specs.Run.{Picture};
ghost use Rattle.slices.specs.SlicesApart.{SlicesApart};

use refusals::number_of;

#[unsafe(no_mangle)]
pub extern "C" fn jiwarbend_start(w: u32, h: u32, done: &mut [u8], progress: &mut [u32; 2]) -> u32
    ensures value { result ≡ start_answer w h (length done.old) }
    ensures progress_after { progress_of progress.new ≡ written result (progress_of progress.old) begun }
    ensures done_after { done.new ≡ written result done.old (replicate (length done.old) 0) }
{
    number_of(jiwarbend::pictures::jiwarbend_start(w, h, done, progress))
}

#[unsafe(no_mangle)]
pub extern "C" fn jiwarbend_rebuild(
    w: u32,
    h: u32,
    x: u32,
    y: u32,
    luma: &mut [u8],
    luma_stride: usize,
    cb: &mut [u8],
    cb_stride: usize,
    cr: &mut [u8],
    cr_stride: usize,
    done: &mut [u8],
    slices: &[u16],
    progress: &mut [u32; 2],
    kind: u8,
    modes: &[u8],
    chroma_mode: u8,
    numbers: &[i32],
) -> u32
    ensures rebuilds { Rebuilds
        (call (record { w = w; h = h; x = x; y = y }) (record { luma = luma_stride; cb = cb_stride; cr = cr_stride })
        slices.now (record_of kind modes.now chroma_mode numbers.now))
        (lent luma.old cb.old cr.old done.old (progress_of progress.old))
        result (lent luma.new cb.new cr.new done.new (progress_of progress.new)) }
    ensures any_order { (g : Picture) → AnyOrder g }
    ensures slices_apart { SlicesApart }
{
    number_of(jiwarbend::pictures::jiwarbend_rebuild(
        w,
        h,
        x,
        y,
        luma,
        luma_stride,
        cb,
        cb_stride,
        cr,
        cr_stride,
        done,
        slices,
        progress,
        kind,
        modes,
        chroma_mode,
        numbers,
    ))
}
