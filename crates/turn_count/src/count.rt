// The number of turns: a row is done with its last macroblock, and the picture with the latest row.
ghost use Rattle.std.specs.Prelude.{◌≡◌, ◌-◌, length, IfOk};
ghost use Rattle.refusals.specs.Refusal.{number_of};
ghost use Rattle.turn_count.specs.Count.{turn_count, turn_count_answer};
ghost use Rattle.turn_count.specs.Due.{latest};
ghost use Rattle.turn_count.specs.inner.Late.{late};

use super::late::late_row;
use maps::slice_map::SliceMap;
use refusals::Refusal;

// Counts the turns that a picture takes from a cleared done map until all is done, each turn accepting its whole list.
#[tactic(auto, unfolding(crate::specs::Count::turn_count_answer))]
pub fn count_turns(w: u32, h: u32, slices: &[u16]) -> Result<u32, Refusal>
    ensures value { number_of result ≡ turn_count_answer w h (length slices.now) }
    ensures turns { IfOk result (λ turns. turns ≡ turn_count w h slices.now) }
{
    let map = SliceMap::new(w, h, slices)?;
    Ok(w + u32::from(latest_row(map)))
}

// How late the last macroblock of the latest row is. The first row is not late at all.
fn latest_row(map: SliceMap) -> u8
    ensures { result ≡ latest map.entry.h (λ y. late map.entry.w map.entry.slices.now (map.entry.w - 1) y) }
{
    // room for the widest picture: there is no heap
    let mut row = [0; 120];
    let mut last: u8 = 0;
    // a row by its number, with which its part of the map is found
    for y in 1..map.h {
        let end = late_row(map, y, &mut row);
        last = last.max(end);
    }
    last
}
