// How late the macroblocks of a row are, by how late those of the row above are. If a macroblock waited only for the one before it in its row, column x would
// be due in turn x + 1; how much later it is never falls along a row, and is what one row of numbers holds.
ghost use Rattle.std.specs.Prelude.{◌≡◌, cond, ◌-◌, ◌<◌, length, get_or};
ghost use Rattle.maps.specs.Size.{Stands};
ghost use Rattle.turn_count.specs.Due.{latest};
ghost use Rattle.turn_count.specs.inner.Late.{late, late_above, LateRow, AboveRow, Edges, RunOn};

use maps::slice_map::SliceMap;

// How late the macroblocks above row y are.
#[derive(Clone, Copy)]
struct RowAbove<'a> {
    map: SliceMap<'a>,
    y: u32,
    late: &'a [u8; 120],
    ghost below_first: { 0 < y },
    ghost inside: { y < map.h },
    ghost is_late: { LateRow map.w map.slices.now (y - 1) late.now },
}

impl RowAbove<'_> {
    // How late those above make the macroblock in column x.
    fn late_at(self, x: u32) -> u8
        requires { Stands self.map.w self.map.h x self.y }
        ensures { result ≡ late_above self.entry.map.w self.entry.map.slices.now x self.entry.y }
    {
        let marks = self.map.marks_at(x, self.y);
        let x = x as usize;
        let b = if marks.b { self.late[x] + 1 } else { 0 };
        let c = if marks.c { self.late[x + 1] + 2 } else { 0 };
        let d = if marks.d { self.late[x - 1] } else { 0 };
        b.max(c.max(d))
    }

    // The same of all columns between the first and the last, which have all three neighbours above. They are looked at side by side, and by their numbers,
    // since each reads seven entries of three lists.
    fn late_between(self, above: &mut [u8; 120])
        requires { Edges self.map.w self.map.slices.now self.y above.old }
        ensures { AboveRow self.entry.map.w self.entry.map.slices.now self.entry.y above.new }
    {
        let w = self.map.w as usize;
        let first = (self.y as usize) * w;
        let up = &self.map.slices[first - w..first];
        let here = &self.map.slices[first..first + w];
        let late = self.late;
        for x in 1..w - 1 {
            let b = if_so(up[x] == here[x], late[x] + 1);
            let c = if_so(up[x + 1] == here[x], late[x + 1] + 2);
            let d = if_so(up[x - 1] == here[x], late[x - 1]);
            above[x] = b.max(c.max(d));
        }
    }
}

// Brings the numbers from the row above to row y, and answers how late its last macroblock is. None of a row is more than two turns later than the last one
// above: where the first one is that already, all of them are.
pub(crate) fn late_row(map: SliceMap, y: u32, row: &mut [u8; 120]) -> u8
    requires { (0 < y) × (y < map.h) × LateRow map.w map.slices.now (y - 1) row.old }
    ensures last { result ≡ late map.entry.w map.entry.slices.now (map.entry.w - 1) y }
    ensures row { LateRow map.entry.w map.entry.slices.now y row.new }
{
    let w = map.w as usize;
    let most = row[w - 1] + 2;
    let under = RowAbove { map, y, late: row };
    let first = under.late_at(0);
    if first == most {
        *row = [most; 120];
        return most;
    }
    // a single column has none before it in its row: worked out in a row of its own as the others are it is slower
    if w == 1 {
        row[0] = first;
        return first;
    }
    let mut above = [0; 120];
    above[0] = first;
    above[w - 1] = under.late_at(map.w - 1);
    under.late_between(&mut above);
    run_on(&above[..w], &mut row[..w])
}

// A number where something is so, and 0 where it is not.
fn if_so(so: bool, n: u8) -> u8
    ensures { result ≡ cond so n 0 }
{
    if so { n } else { 0 }
}

// A row from the left, by what those above make of it: each macroblock is at least as late as the one before it. Answers how late the last one is. Its columns
// alone are written: a copy of all 120 places is slower where the picture is narrow.
fn run_on(above: &[u8], row: &mut [u8]) -> u8
    requires { length row.old ≡ length above.now }
    ensures row { RunOn above.now row.new }
    ensures last { result ≡ latest (length above.now) (λ i. get_or above.now i 0) }
{
    let mut last: u8 = 0;
    for (x, late) in above.iter().enumerate() {
        last = last.max(*late);
        row[x] = last;
    }
    last
}
