// The done map: 1 means done, any other byte undone, and so does a place outside the map.
ghost use Rattle.std.specs.Prelude.{◌≡◌, not, ◌||◌, ◌≤◌};
ghost use Rattle.maps.specs.Done.{is_done, all_settled};
ghost use Rattle.maps.specs.Neighbours.{marks_of};
ghost use Rattle.maps.specs.Size.{address};

use super::neighbours::Marks;
use super::size::Spot;

// Whether the macroblock at an address is done.
#[inline]
pub fn is_done(done: &[u8], a: usize) -> bool
    ensures { result ≡ is_done done.now a }
{
    done.get(a) == Some(&1)
}

// Whether each neighbour of macroblock (x, y) that is waited for is done.
#[inline]
#[tactic(auto, unfolding(crate::specs::Done::all_settled))]
pub fn ready(done: &[u8], spot: Spot, waited: Marks) -> bool
    ensures { result ≡ all_settled spot.w spot.x spot.y (marks_of waited) done.now }
{
    let w = spot.w as usize;
    let x = spot.x as usize;
    let y = spot.y as usize;
    let left = x.saturating_sub(1);
    let above = y.saturating_sub(1);
    let a = settled(done, w, left, y, waited.a);
    let b = settled(done, w, x, above, waited.b);
    let c = settled(done, w, x + 1, above, waited.c);
    let d = settled(done, w, left, above, waited.d);
    a && b && c && d
}

// Whether the macroblock in column x and row y is done, if it is waited for.
#[inline]
fn settled(done: &[u8], w: usize, x: usize, y: usize, waited: bool) -> bool
    requires { (w ≤ 4294967295) × (x ≤ 4294967296) × (y ≤ 4294967295) }
    ensures { result ≡ not waited || is_done done.now (address w x y) }
{
    !waited || is_done(done, y * w + x)
}
