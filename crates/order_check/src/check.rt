// The calls: is a list of addresses in order, and where is it not.
ghost use Rattle.std.specs.Prelude.{◌≡◌, cond, ◌≤◌, length, get_or, ltb, IfOk};
ghost use Rattle.laws.specs.Table.{all_below};
ghost use Rattle.maps.specs.Size.{total};
ghost use Rattle.refusals.specs.Refusal.{number_of};
ghost use Rattle.order_check.specs.Check.{out_of_place, verdict_of, order_answer};
ghost use Rattle.order_check.specs.inner.Places.{Checkable};

use super::early::Placed;
use super::places::note_places;
use maps::slice_map::SliceMap;
use refusals::Refusal;

// Whether a list names every macroblock once, each after all its available neighbours.
pub fn check_order(w: u32, h: u32, slices: &[u16], order: &[u32]) -> Result<bool, Refusal>
    ensures value { number_of result ≡ order_answer w h (length slices.now) order.now }
    ensures verdict { IfOk result (λ yes. verdict_of w slices.now order.now ≡ cond yes 1 0) }
{
    let place = out_of_place(w, h, slices, order)?;
    Ok((place as usize) == order.len())
}

// The place of the first entry that is out of place, and the list's length where none is.
#[tactic(auto, unfolding(crate::specs::Check::order_answer))]
pub fn out_of_place(w: u32, h: u32, slices: &[u16], order: &[u32]) -> Result<u32, Refusal>
    ensures value { number_of result ≡ order_answer w h (length slices.now) order.now }
    ensures place { IfOk result (λ place. place ≡ out_of_place w slices.now order.now) }
{
    let map = SliceMap::new(w, h, slices)?;
    if order.len() != slices.len() || !all_inside(order, h * w) {
        return Err(Refusal::Order);
    }
    Ok(first_out(map, order))
}

// Whether every address of a list lies in a picture of so many macroblocks. Without a way out they are looked at side by side.
fn all_inside(order: &[u32], total: u32) -> bool
    ensures { result ≡ all_below (length order.now) (λ i. ltb (get_or order.now i 0) total) }
{
    order.iter().fold(true, |inside, a| inside & (*a < total))
}

// The place of the first entry that is out of place, for a list that no rule refuses. A small picture does not wait for a large table.
fn first_out(map: SliceMap, order: &[u32]) -> u32
    requires { Checkable map.w map.h map.slices.now order.now }
    ensures { result ≡ out_of_place map.entry.w map.entry.slices.now order.now }
{
    if order.len() <= 1024 {
        first_by_places::<1024>(map, order)
    } else {
        first_by_places::<8160>(map, order)
    }
}

// An entry is out of place where its macroblock was named before, or comes before a neighbour. The places are noted in a table with room for N macroblocks.
// Tried and slower where it is inlined: then a list that is refused makes room for the large table as well.
#[inline(never)]
fn first_by_places<const N: usize>(map: SliceMap, order: &[u32]) -> u32
    requires { Checkable map.w map.h map.slices.now order.now × (total map.w map.h ≤ N) × (N ≤ 8160) }
    ensures { result ≡ out_of_place map.entry.w map.entry.slices.now order.now }
{
    // of its own, since nothing is lent for it and there is no heap
    let mut places = [u16::MAX; N];
    let named = note_places(order, &mut places);
    let placed = Placed {
        map,
        places: &places,
    };
    u32::from(named.min(placed.earliest()))
}
