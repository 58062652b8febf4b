// Which macroblock comes before one of its available neighbours, by the places of all: a neighbour that is not named has place u16::MAX.
ghost use Rattle.std.specs.Prelude.{◌≡◌, true, cond, ◌&&◌, ◌+◌, ◌-◌, ◌≤◌, ◌<◌, leb, length, get_or};
ghost use Rattle.maps.specs.Size.{total, Stands};
ghost use Rattle.order_check.specs.inner.Places.{Least, EarlyIn, EarlyBetween, if_early};

use maps::slice_map::SliceMap;

// A slice map, and a table with a place for each macroblock.
#[derive(Clone, Copy)]
pub(crate) struct Placed<'a> {
    pub(crate) map: SliceMap<'a>,
    pub(crate) places: &'a [u16],
    ghost room: { total map.w map.h ≤ length places.now },
}

impl Placed<'_> {
    // The least place at which a macroblock comes before a neighbour, and u16::MAX where none does.
    pub(crate) fn earliest(self) -> u16
        ensures { Least (EarlyIn self.entry.map.w self.entry.map.h self.entry.map.slices.now self.entry.places.now) result }
    {
        let mut first = self.earliest_in_first_row();
        // a row by its number, with which its places are computed
        for y in 1..self.map.h {
            first = first.min(self.earliest_in_row(y));
        }
        first
    }

    // The same of the first row.
    fn earliest_in_first_row(self) -> u16
        ensures { Least (EarlyBetween self.entry.map.w self.entry.map.slices.now self.entry.places.now 0 0 self.entry.map.w) result }
    {
        let mut first = u16::MAX;
        // a column by its number, as the rows
        for x in 0..self.map.w {
            first = first.min(self.early_in_first_row(x));
        }
        first
    }

    // The place of a macroblock of the first row if it comes too early: it has no neighbour but the one on its left. They are looked at side by side: tried and
    // slower by `early_at`, with its ways out.
    fn early_in_first_row(self, x: u32) -> u16
        requires { x < self.map.w }
        ensures { result ≡ if_early self.entry.map.w self.entry.map.slices.now self.entry.places.now x 0 }
    {
        let here = x as usize;
        let left = here.saturating_sub(1);
        let slices = self.map.slices;
        let places = self.places;
        let a = (x > 0) & (slices[left] == slices[here]) & (places[here] <= places[left]);
        place_if(a, places[here])
    }

    // The same of a row below: its ends, and what stands between them.
    fn earliest_in_row(self, y: u32) -> u16
        requires { (0 < y) × (y < self.map.h) }
        ensures { Least (EarlyBetween self.entry.map.w self.entry.map.slices.now self.entry.places.now y 0 self.entry.map.w) result }
    {
        let left = self.early_at(0, y);
        let right = self.early_at(self.map.w - 1, y);
        let inner = self.earliest_between(y as usize);
        inner.min(left.min(right))
    }

    // The place of macroblock (x, y) if it comes too early, and u16::MAX if not. Tried and slower as a call, which gets the map and the table through memory.
    #[inline]
    fn early_at(self, x: u32, y: u32) -> u16
        requires { Stands self.map.w self.map.h x y }
        ensures { result ≡ if_early self.entry.map.w self.entry.map.slices.now self.entry.places.now x y }
    {
        let marks = self.map.marks_at(x, y);
        let w = self.map.w as usize;
        let here = (y as usize) * w + (x as usize);
        let places = self.places;
        let a = if_marked(marks.a, places, here, 1);
        let b = if_marked(marks.b, places, here, w);
        let c = if_marked(marks.c, places, here, w - 1);
        let d = if_marked(marks.d, places, here, w + 1);
        place_if(a | b | c | d, places[here])
    }

    // The least such place of the macroblocks between the ends of row y, which have all four neighbours. They are looked at side by side.
    fn earliest_between(self, y: usize) -> u16
        requires { (0 < y) × (y < self.map.h) }
        ensures { Least (EarlyBetween self.entry.map.w self.entry.map.slices.now self.entry.places.now y 1 (self.entry.map.w - 1)) result }
    {
        let mut first = u16::MAX;
        for x in 1..(self.map.w as usize) - 1 {
            first = first.min(self.early_between(x, y));
        }
        first
    }

    // The place of one of them if it comes too early.
    fn early_between(self, x: usize, y: usize) -> u16
        requires { (0 < x) × (x + 1 < self.map.w) × (0 < y) × (y < self.map.h) }
        ensures { result ≡ if_early self.entry.map.w self.entry.map.slices.now self.entry.places.now x y }
    {
        let w = self.map.w as usize;
        let here = y * w + x;
        let slices = self.map.slices;
        let places = self.places;
        let a = (slices[here - 1] == slices[here]) & (places[here] <= places[here - 1]);
        let b = (slices[here - w] == slices[here]) & (places[here] <= places[here - w]);
        let c = (slices[here - w + 1] == slices[here]) & (places[here] <= places[here - w + 1]);
        let d = (slices[here - w - 1] == slices[here]) & (places[here] <= places[here - w - 1]);
        place_if(a | b | c | d, places[here])
    }
}

// Whether a macroblock comes no later than the one so far back, if that is marked.
fn if_marked(mark: bool, places: &[u16], here: usize, back: usize) -> bool
    requires { (here < length places.now) × (mark ≡ true → back ≤ here) }
    ensures { result ≡ mark && leb (get_or places.now here 0) (get_or places.now (here - back) 0) }
{
    mark && places[here] <= places[here - back]
}

// A place where it counts.
fn place_if(early: bool, place: u16) -> u16
    ensures { result ≡ cond early place 65535 }
{
    if early { place } else { u16::MAX }
}
