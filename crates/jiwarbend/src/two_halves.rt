// A macroblock call in two halves, for several cores on one picture. C's progress record is its two numbers, one after the other.
ghost use Rattle.refusals.specs.Refusal.{number_of};
ghost use Rattle.macroblock.specs.Kinds.{record_of};
ghost use Rattle.macroblock.specs.declared.Record.{Record};
ghost use Rattle.maps.specs.Progress.{progress_of};
ghost use Rattle.calls.specs.Rebuild.{call, lent};
ghost use Rattle.calls.specs.Run.{Picture};
ghost use Rattle.halves.specs.Halves.{Computes, Commits};
ghost use Rattle.halves.specs.InTwo.{InTwo};
ghost use Rattle.halves.specs.Lasting.{Lasting};
ghost use Rattle.halves.specs.Workers.{Workers};

use macroblock::{Planes, PlanesRef, RecordRef, Strides};
use maps::size::Spot;
use refusals::Refusal;

// What compute leaves in the block, commit puts into the planes: at once it is what the whole call leaves, and later too, as long as the macroblock is undone.
pub fn jiwarbend_compute(
    w: u32,
    h: u32,
    x: u32,
    y: u32,
    luma: &[u8],
    luma_stride: usize,
    cb: &[u8],
    cb_stride: usize,
    cr: &[u8],
    cr_stride: usize,
    done: &[u8],
    slices: &[u16],
    progress: &[u32; 2],
    kind: u8,
    modes: &[u8],
    chroma_mode: u8,
    numbers: &[i32],
    block: &mut [u8],
) -> Result<(), Refusal>
    ensures computes { Computes
        (call (record { w = w; h = h; x = x; y = y }) (record { luma = luma_stride; cb = cb_stride; cr = cr_stride })
        slices.now (record_of kind modes.now chroma_mode numbers.now))
        (lent luma.now cb.now cr.now done.now (progress_of progress.now))
        block.old (number_of result) block.new }
    ensures in_two { InTwo }
    ensures lasting { (g : Picture) → Lasting g }
{
    let spot = Spot { w, h, x, y };
    let strides = Strides {
        luma: luma_stride,
        cb: cb_stride,
        cr: cr_stride,
    };
    let planes = PlanesRef {
        luma,
        cb,
        cr,
        strides,
    };
    let rec = RecordRef {
        kind,
        modes,
        chroma_mode,
        numbers,
    };
    cores::compute::compute(spot, planes, done, slices, progress, rec, block)
}

// However workers mix the halves with whole calls, a finished picture is the right one, no result is in vain and nobody gets stuck.
pub fn jiwarbend_commit(
    w: u32,
    h: u32,
    x: u32,
    y: u32,
    luma: &mut [u8],
    luma_stride: usize,
    cb: &mut [u8],
    cb_stride: usize,
    cr: &mut [u8],
    cr_stride: usize,
    done: &mut [u8],
    slices: &[u16],
    progress: &mut [u32; 2],
    block: &[u8],
) -> Result<(), Refusal>
    ensures commits { (m : Record) → Commits
        (call (record { w = w; h = h; x = x; y = y }) (record { luma = luma_stride; cb = cb_stride; cr = cr_stride }) slices.now m)
        block.now (lent luma.old cb.old cr.old done.old (progress_of progress.old))
        (number_of result) (lent luma.new cb.new cr.new done.new (progress_of progress.new)) }
    ensures workers { (g : Picture) → Workers g }
{
    let spot = Spot { w, h, x, y };
    let strides = Strides {
        luma: luma_stride,
        cb: cb_stride,
        cr: cr_stride,
    };
    let mut planes = Planes {
        luma,
        cb,
        cr,
        strides,
    };
    cores::commit::commit(spot, &mut planes, done, slices, progress, block)
}
