// A macroblock call in two halves for C, for several cores on one picture. The progress record is its two numbers, one after the other.
ghost use Rattle.macroblock.specs.Kinds.{record_of};
ghost use Rattle.macroblock.specs.declared.Record.{Record};
ghost use Rattle.maps.specs.Progress.{progress_of};
ghost use Rattle.calls.specs.Rebuild.{call, lent};
ghost use Rattle.calls.specs.Run.{Picture};
ghost use Rattle.halves.specs.Halves.{Computes, Commits};
ghost use Rattle.halves.specs.InTwo.{InTwo};
ghost use Rattle.halves.specs.Lasting.{Lasting};
ghost use Rattle.halves.specs.Workers.{Workers};

use refusals::number_of;

// What compute leaves in the block, commit puts into the planes: at once it is what the whole call leaves, and later too, as long as the macroblock is undone.
#[unsafe(no_mangle)]
pub extern "C" fn jiwarbend_compute(
    w: u32,
    h: u32,
    x: u32,
    y: u32,
    luma: &[u8],
    luma_stride: usize,
    cb: &[u8],
    cb_stride: usize,
    cr: &[u8],
    cr_stride: usize,
    done: &[u8],
    slices: &[u16],
    progress: &[u32; 2],
    kind: u8,
    modes: &[u8],
    chroma_mode: u8,
    numbers: &[i32],
    block: &mut [u8],
) -> u32
    ensures computes { Computes
        (call (record { w = w; h = h; x = x; y = y }) (record { luma = luma_stride; cb = cb_stride; cr = cr_stride })
        slices.now (record_of kind modes.now chroma_mode numbers.now))
        (lent luma.now cb.now cr.now done.now (progress_of progress.now))
        block.old result block.new }
    ensures in_two { InTwo }
    ensures lasting { (g : Picture) → Lasting g }
{
    number_of(jiwarbend::two_halves::jiwarbend_compute(
        w,
        h,
        x,
        y,
        luma,
        luma_stride,
        cb,
        cb_stride,
        cr,
        cr_stride,
        done,
        slices,
        progress,
        kind,
        modes,
        chroma_mode,
        numbers,
        block,
    ))
}

// However workers mix the halves with whole calls, a finished picture is the right one, no result is in vain and nobody gets stuck.
#[unsafe(no_mangle)]
pub extern "C" fn jiwarbend_commit(
    w: u32,
    h: u32,
    x: u32,
    y: u32,
    luma: &mut [u8],
    luma_stride: usize,
    cb: &mut [u8],
    cb_stride: usize,
    cr: &mut [u8],
    cr_stride: usize,
    done: &mut [u8],
    slices: &[u16],
    progress: &mut [u32; 2],
    block: &[u8],
) -> u32
    ensures commits { (m : Record) → Commits
        (call (record { w = w; h = h; x = x; y = y }) (record { luma = luma_stride; cb = cb_stride; cr = cr_stride }) slices.now m)
        block.now (lent luma.old cb.old cr.old done.old (progress_of progress.old))
        result (lent luma.new cb.new cr.new done.new (progress_of progress.new)) }
    ensures workers { (g : Picture) → Workers g }
{
    number_of(jiwarbend::two_halves::jiwarbend_commit(
        w,
        h,
        x,
        y,
        luma,
        luma_stride,
        cb,
        cb_stride,
        cr,
        cr_stride,
        done,
        slices,
        progress,
        block,
    ))
}
