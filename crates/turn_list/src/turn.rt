// One turn: each row's leftmost undone macroblock, if all its available neighbours are done.
ghost use Rattle.std.specs.Prelude.{◌≡◌, ◌≤◌, ◌<◌, length, IfOk};
ghost use Rattle.laws.specs.Answer.{written};
ghost use Rattle.refusals.specs.Refusal.{number_of};
ghost use Rattle.turn_list.specs.Turn.{may_start, turn, over, turn_answer};
ghost use Rattle.turn_list.specs.inner.Rows.{RowsAgree};

use super::rows::rows_agree;
use maps::done::ready;
use maps::size::Spot;
use maps::slice_map::SliceMap;
use refusals::Refusal;

// Lists the macroblocks that may start now from the top row down, and tells how many there are. The rest of the list keeps what it held.
#[tactic(auto, unfolding(crate::specs::Turn::turn_answer))]
pub fn turn(
    w: u32,
    h: u32,
    done: &[u8],
    slices: &[u16],
    rows: &[u32],
    list: &mut [u32],
) -> Result<u32, Refusal>
    ensures value { number_of result ≡ turn_answer w h slices.now done.now rows.now (length list.old) }
    ensures list_after { list.new ≡ written (number_of result) list.old (over (turn w h slices.now done.now) list.old) }
    ensures how_many { IfOk result (λ many. many ≡ length (turn w h slices.now done.now)) }
{
    let map = SliceMap::new(w, h, slices)?;
    if done.len() != slices.len() {
        return Err(Refusal::Room);
    }
    if rows.len() != (h as usize) || list.len() != rows.len() || !rows_agree(w, done, rows) {
        return Err(Refusal::Rows);
    }
    Ok(list_turn(map, done, rows, list))
}

// Lists a turn row by row, and tells how many macroblocks it has.
fn list_turn(map: SliceMap, done: &[u8], rows: &[u32], list: &mut [u32]) -> u32
    requires { RowsAgree map.w map.h done.now rows.now × (length list.old ≡ map.h) }
    ensures many { result ≡ length (turn map.entry.w map.entry.h map.entry.slices.now done.now) }
    ensures listed { list.new ≡ over (turn map.entry.w map.entry.h map.entry.slices.now done.now) list.old }
{
    let mut many = 0;
    for (y, x) in rows.iter().enumerate() {
        if may_start(map, done, *x, y as u32) {
            list[many as usize] = (y as u32) * map.w + *x;
            many += 1;
        }
    }
    many
}

// Whether macroblock (x, y) lies in its row, and all its available neighbours are done.
fn may_start(map: SliceMap, done: &[u8], x: u32, y: u32) -> bool
    requires { y < map.h }
    ensures { result ≡ may_start map.entry.w map.entry.slices.now done.now x y }
{
    let SliceMap { w, h, .. } = map;
    x < w && ready(done, Spot { w, h, x, y }, map.marks_at(x, y))
}
