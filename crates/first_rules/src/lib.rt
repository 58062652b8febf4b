// What a call for a macroblock is asked before anything of its record is looked at: the size, the memory that is lent, the place, and whether it is done.
#![tactic(auto)]

ghost use Rattle.std.specs.Prelude.{◌≡◌};
ghost use Rattle.laws.specs.Answer.{answer};
ghost use Rattle.macroblock.specs.Kinds.{record_in};
ghost use Rattle.macroblock.specs.Rules.{lists_good};
ghost use Rattle.macroblock.specs.declared.Record.{Record};
ghost use Rattle.calls.specs.Rebuild.{call, lent, open_rules, first};
ghost use Rattle.refusals.specs.Refusal.{number_of};

use macroblock::{PlanesRef, RecordRef};
use maps::done::is_done;
use maps::progress::Progress;
use maps::size::{Spot, place_ok, size_ok};
use planes::room_ok;
use refusals::Refusal;

mod planes; // the memory that is lent

// Refuses a call by the rules before a record's modes are looked at: whatever the record is, where the lists that come with the call are as long as they
// should be if `lists` says so. Where these are the record's own, these are the first rules of the whole call.
#[tactic(auto, using(maps::proofs::Sizes::size_is), unfolding(calls::specs::Rebuild::first_rules))]
pub fn refuse(
    spot: Spot,
    planes: PlanesRef,
    done: &[u8],
    slices: &[u16],
    progress: Progress,
    lists: bool,
) -> Result<(), Refusal>
    ensures open { (m : Record) → number_of result ≡ answer (open_rules (call spot planes.entry.strides slices.now m)
        (lent planes.entry.luma.now planes.entry.cb.now planes.entry.cr.now done.now progress) lists) }
    ensures first { (m : Record) → lists_good m ≡ lists → number_of result ≡ first (call spot planes.entry.strides slices.now m)
        (lent planes.entry.luma.now planes.entry.cb.now planes.entry.cr.now done.now progress) }
{
    if !size_ok(spot.w, spot.h) {
        return Err(Refusal::Size);
    }
    let w = spot.w as usize;
    let h = spot.h as usize;
    if !room_ok(w, h, planes, done, slices, progress.count) || !lists {
        return Err(Refusal::Room);
    }
    if !place_ok(spot) {
        return Err(Refusal::Place);
    }
    if is_done(done, (spot.y as usize) * w + (spot.x as usize)) {
        return Err(Refusal::Done);
    }
    Ok(())
}

// Whether a record's lists are as long as they should be.
#[tactic(auto, unfolding(macroblock::specs::Rules::lists_good))]
pub fn has_lists(rec: RecordRef) -> bool
    ensures { result ≡ lists_good (record_in rec.entry) }
{
    rec.modes.len() == 16 && rec.numbers.len() == 384
}
