// The first half of a macroblock call: the macroblock is rebuilt in small planes that hold the samples around it, and its squares are cut out.
ghost use Rattle.std.specs.Prelude.{◌≡◌, true, length};
ghost use Rattle.laws.specs.Answer.{written};
ghost use Rattle.maps.specs.Neighbours.{marks_of};
ghost use Rattle.maps.specs.Progress.{progress_of};
ghost use Rattle.macroblock.specs.Kinds.{record_in};
ghost use Rattle.macroblock.specs.Rules.{rooms, rebuild_answer};
ghost use Rattle.calls.specs.Rebuild.{call, lent};
ghost use Rattle.halves.specs.Halves.{Computes};
ghost use Rattle.cores.specs.inner.Aside.{block_at};
ghost use Rattle.refusals.specs.Refusal.{number_of};

use super::around::{bring_around, middle};
use super::copy::{CB, CR, LUMA, copy_rect};
use first_rules::{has_lists, refuse};
use macroblock::{Planes, PlanesRef, RecordRef, Strides};
use maps::neighbours::{Marks, marks_of};
use maps::progress::Progress;
use maps::size::Spot;
use refusals::Refusal;
use waits::is_ready;

// Puts the samples of a macroblock into the block, from a record.
pub fn compute(
    spot: Spot,
    planes: PlanesRef,
    done: &[u8],
    slices: &[u16],
    progress: &[u32; 2],
    rec: RecordRef,
    block: &mut [u8],
) -> Result<(), Refusal>
    ensures { Computes (call spot planes.entry.strides slices.now (record_in rec.entry))
        (lent planes.entry.luma.now planes.entry.cb.now planes.entry.cr.now done.now (progress_of progress.now))
        block.old (number_of result) block.new }
{
    let so_far = Progress::from(*progress);
    let long = block.len() == 384 && has_lists(rec);
    refuse(spot, planes, done, slices, so_far, long)?;
    let marks = marks_of(slices, spot);
    let ready = is_ready(spot, done, marks, rec);
    rebuild_aside(
        spot.x as usize,
        spot.y as usize,
        planes,
        marks,
        ready,
        rec,
        block,
    )
}

// Rebuilds macroblock (x, y) of three planes beside them.
fn rebuild_aside(
    x: usize,
    y: usize,
    planes: PlanesRef,
    marks: Marks,
    ready: bool,
    rec: RecordRef,
    block: &mut [u8],
) -> Result<(), Refusal>
    requires marks_value { rooms x y (length planes.luma.now) (length planes.cb.now) (length planes.cr.now) planes.strides (marks_of marks) ≡ true }
    requires block_len { length block.old ≡ 384 }
    ensures value { number_of result ≡ rebuild_answer true (marks_of marks) ready (record_in rec.entry) }
    ensures block_after { block.new ≡ written (number_of result) block.old (block_at planes.entry.strides x y (marks_of marks)
        (record_in rec.entry) planes.entry.luma.now planes.entry.cb.now planes.entry.cr.now) }
{
    let strides = planes.strides;
    let mut luma = [0u8; 1536];
    let mut cb = [0u8; 384];
    let mut cr = [0u8; 384];
    bring_around::<16>(planes.luma, strides.luma, x, y, marks, &mut luma);
    bring_around::<8>(planes.cb, strides.cb, x, y, marks, &mut cb);
    bring_around::<8>(planes.cr, strides.cr, x, y, marks, &mut cr);
    let mut small = Planes {
        luma: &mut luma,
        cb: &mut cb,
        cr: &mut cr,
        strides: Strides {
            luma: 48,
            cb: 24,
            cr: 24,
        },
    };
    macroblock::rebuild(1, 1, &mut small, marks, ready, rec)?;
    copy_rect::<16>(16, &luma, middle::<16>(), block, LUMA);
    copy_rect::<8>(8, &cb, middle::<8>(), block, CB);
    copy_rect::<8>(8, &cr, middle::<8>(), block, CR);
    Ok(())
}
