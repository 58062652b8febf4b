// The picture: macroblocks offered in any order, over planes, maps and a progress record that are lent.
#![tactic(auto)]

ghost use Rattle.std.specs.Prelude.{◌≡◌};
ghost use Rattle.macroblock.specs.Kinds.{SameLent, record_in};
ghost use Rattle.maps.specs.Progress.{progress_of};
ghost use Rattle.calls.specs.AnyOrder.{AnyOrder};
ghost use Rattle.calls.specs.Rebuild.{call, lent, Rebuilds};
ghost use Rattle.calls.specs.Run.{Picture};
ghost use Rattle.refusals.specs.Refusal.{number_of};
ghost use Rattle.slices.specs.SlicesApart.{SlicesApart};

use first_rules::{has_lists, refuse};
use macroblock::{Planes, RecordRef};
use maps::neighbours::marks_of;
use maps::progress::Progress;
use maps::size::Spot;
use refusals::Refusal;
use waits::is_ready;

// Rebuilds a macroblock of a picture from a record: in any order that it accepts, the picture is the right one, and a lost slice does not spoil the others.
// The progress record is its two numbers, stored only where the call is taken.
#[tactic(auto, using(calls::proofs::AnyOrder::any_order, slices::proofs::SlicesApart::slices_apart))]
pub fn rebuild(
    spot: Spot,
    planes: &mut Planes,
    done: &mut [u8],
    slices: &[u16],
    progress: &mut [u32; 2],
    rec: RecordRef,
) -> Result<(), Refusal>
    ensures rebuilds { Rebuilds (call spot planes.old.strides slices.now (record_in rec.entry))
        (lent planes.old.luma.now planes.old.cb.now planes.old.cr.now done.old (progress_of progress.old))
        (number_of result)
        (lent planes.new.luma.now planes.new.cb.now planes.new.cr.now done.new (progress_of progress.new)) }
    ensures lent { SameLent planes.old planes.new }
    ensures any_order { (g : Picture) → AnyOrder g }
    ensures slices_apart { SlicesApart }
{
    let before = Progress::from(*progress);
    let lists = has_lists(rec);
    refuse(spot, planes.shown(), done, slices, before, lists)?;
    let marks = marks_of(slices, spot);
    let ready = is_ready(spot, done, marks, rec);
    macroblock::rebuild(spot.x, spot.y, planes, marks, ready, rec)?;
    let here = spot.y * spot.w + spot.x;
    done[here as usize] = 1;
    *progress = before.accepted(here, spot.h * spot.w).into();
    Ok(())
}
