// The neighbouring macroblocks (clause 6.4.9). A neighbour's address is that of the macroblock less 1 (A), w (B), w - 1 (C) or w + 1 (D).
ghost use Rattle.std.specs.Prelude.{◌≡◌, true, ◌&&◌, ◌-◌, ◌≤◌, ◌<◌, eqb, length, get_or};
ghost use Rattle.maps.specs.Neighbours.{marks_of, available, mapped, marks_at};
ghost use Rattle.maps.specs.Size.{address};

use super::size::{Spot, place_ok, size_ok};

// The marks of the neighbours: whether A (left), B (above), C (above-right) and D (above-left) are available.
#[derive(Clone, Copy, Debug, Default, PartialEq, Eq)]
pub struct Marks {
    pub a: bool,
    pub b: bool,
    pub c: bool,
    pub d: bool,
}

// The marks of a macroblock: none where the size, the slice map's length or the place breaks the rules.
#[inline]
#[tactic(auto, using(crate::proofs::Beside::mapped_is, crate::proofs::Sizes::address_inside))]
pub fn marks_of(slices: &[u16], spot: Spot) -> Marks
    ensures { marks_of result ≡ marks_at spot.w spot.h slices.now spot.x spot.y }
{
    if !is_mapped(spot, slices.len()) {
        return Marks::default();
    }
    marks_inside(slices, spot.w as usize, spot.x as usize, spot.y as usize)
}

// Whether the size, a slice map of so many entries and the place keep the rules.
#[inline]
#[tactic(auto, unfolding(crate::specs::Neighbours::mapped))]
fn is_mapped(spot: Spot, entries: usize) -> bool
    ensures { result ≡ mapped spot.w spot.h entries spot.x spot.y }
{
    let total = (spot.h as usize) * (spot.w as usize);
    size_ok(spot.w, spot.h) && entries == total && place_ok(spot)
}

// The marks of a macroblock that lies in the slice map.
#[inline]
fn marks_inside(slices: &[u16], w: usize, x: usize, y: usize) -> Marks
    requires { (x < w) × (w ≤ 120) × (address w x y < length slices.now) }
    ensures { marks_of result ≡ available w slices.now x y }
{
    let here = y * w + x;
    let a = same_slice(slices, here, true, x > 0, 1);
    let b = same_slice(slices, here, true, y > 0, w);
    let c = same_slice(slices, here, y > 0, x + 1 < w, w - 1);
    let d = same_slice(slices, here, y > 0, x > 0, w + 1);
    Marks { a, b, c, d }
}

// Whether the macroblock `back` before `here` lies in the picture, that is, in one of its rows and columns, and has the same slice number.
#[inline]
fn same_slice(slices: &[u16], here: usize, row: bool, column: bool, back: usize) -> bool
    requires { (here < length slices.now) × (row && column ≡ true → back ≤ here) }
    ensures { result ≡ row && column && eqb (get_or slices.now (here - back) 0) (get_or slices.now here 0) }
{
    row && column && slices[here - back] == slices[here]
}
