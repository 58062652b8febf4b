// The neighbour macroblocks that a record waits for: those that hold samples which one of its blocks reads.
#![tactic(auto)]

ghost use Rattle.std.specs.Prelude.{◌≡◌, ◌||◌, List, ℤ, get_or};
ghost use Rattle.maps.specs.Done.{all_settled};
ghost use Rattle.maps.specs.Neighbours.{marks_of};
ghost use Rattle.cut.specs.Cut.{cut_for, sides_of};
ghost use Rattle.cut.specs.Kind.{kind_number};
ghost use Rattle.cut.specs.inner.Blocks.{BlockOf};
ghost use Rattle.macroblock.specs.Kinds.{record_of};
ghost use Rattle.reads.specs.Exactly.{chroma8x8};
ghost use Rattle.reads.specs.Groups.{groups_of};
ghost use Rattle.waits.specs.Narrow.{AllNarrow};
ghost use Rattle.waits.specs.Waits.{holds_one, square_reads, predictor_for, waits};
ghost use Rattle.waits.specs.inner.Holders.{holders_at};

use basics::marks::Sides;
use cut::kind::Kind;
use cut::scan_xy::{scan_column, scan_row};
use cut::square_sides;
use macroblock::RecordRef;
use maps::done::ready;
use maps::neighbours::Marks;
use maps::size::Spot;
use reads::groups::{Chroma8x8, Luma4x4, Luma8x8, Luma16x16, Predictor};

// Whether the neighbours are done that a record waits for at a macroblock of a picture, where these are available. Where every available one is done, the
// record's modes are not looked at, and where chroma has to wait those of luma are not.
pub fn is_ready(spot: Spot, done: &[u8], marks: Marks, rec: RecordRef) -> bool
    ensures { (numbers : List ℤ) → result ≡ all_settled spot.w spot.x spot.y
        (waits (marks_of marks) (record_of rec.entry.kind rec.entry.modes.now rec.entry.chroma_mode numbers)) done.now }
{
    ready(done, spot, marks)
        || (ready(done, spot, chroma_waited(marks, rec.chroma_mode))
            && luma_ready(spot, done, marks, Kind::of(rec.kind), rec.modes))
}

// The same of luma alone, up to the first block that has to wait.
fn luma_ready(spot: Spot, done: &[u8], marks: Marks, kind: Kind, modes: &[u8]) -> bool
    ensures { result ≡ all_settled spot.w spot.x spot.y
        (square_reads (predictor_for (kind_number kind)) (cut_for (kind_number kind)).across (marks_of marks) (λ k. get_or modes.now k 0)) done.now }
{
    // By number: it is the block's place as well as its mode's, and a mode may not be there.
    for k in 0..kind.used_modes() {
        let for_block = block_waited(kind, k, mode_at(modes, k), marks);
        if !ready(done, spot, for_block) {
            return false;
        }
    }
    true
}

// The neighbours that a record waits for, where these are available: if its modes are permitted it depends on no other. A mode that is not there counts as 0.
pub fn waited(marks: Marks, rec: RecordRef) -> Marks
    ensures result_value { (numbers : List ℤ) → marks_of result
        ≡ waits (marks_of marks) (record_of rec.entry.kind rec.entry.modes.now rec.entry.chroma_mode numbers) }
    ensures all_narrow { AllNarrow }
{
    join(
        luma_waited(marks, Kind::of(rec.kind), rec.modes),
        chroma_waited(marks, rec.chroma_mode),
    )
}

// Those that hold what a luma block reads. By number, as above.
fn luma_waited(marks: Marks, kind: Kind, modes: &[u8]) -> Marks
    ensures { marks_of result ≡ square_reads (predictor_for (kind_number kind)) (cut_for (kind_number kind)).across (marks_of marks)
        (λ k. get_or modes.now k 0) }
{
    let mut all = Marks::default();
    for k in 0..kind.used_modes() {
        all = join(all, block_waited(kind, k, mode_at(modes, k), marks));
    }
    all
}

// Those that hold what luma block k of a kind reads. One that stands neither in the first column nor in the first row has blocks of its own macroblock beside
// it, and is not asked.
fn block_waited(kind: Kind, k: usize, mode: u8, marks: Marks) -> Marks
    requires { BlockOf (cut_for (kind_number kind)).across k }
    ensures { let m = (cut_for (kind_number kind)).across in
        marks_of result ≡ holds_one m k ((predictor_for (kind_number kind)).reads (groups_of (sides_of m (marks_of marks) k)) mode) }
{
    if (scan_column(k) != 0) & (scan_row(k) != 0) {
        return Marks::default();
    }
    let read = groups_for(kind, mode, kind.sides_at(k, marks));
    holders_of(k, kind.across(), read)
}

// Those that hold what a chroma block reads. Its square is one block.
fn chroma_waited(marks: Marks, mode: u8) -> Marks
    ensures { marks_of result ≡ square_reads chroma8x8 1 (marks_of marks) (λ _. mode) }
{
    holders_of(0, 1, Chroma8x8::groups(mode, square_sides(marks)))
}

// The groups that a luma block of a kind reads.
fn groups_for(kind: Kind, mode: u8, sides: Sides) -> Sides
    ensures { groups_of result ≡ (predictor_for (kind_number kind)).reads (groups_of sides) mode }
{
    match kind {
        Kind::Luma4x4 => Luma4x4::groups(mode, sides),
        Kind::Luma8x8 => Luma8x8::groups(mode, sides),
        Kind::Luma16x16 => Luma16x16::groups(mode, sides),
    }
}

fn mode_at(modes: &[u8], k: usize) -> u8
    ensures { result ≡ get_or modes.now k 0 }
{
    modes.get(k).copied().unwrap_or(0)
}

// The neighbours that hold one of the groups of block k, of m across, that are read: A and D what lies left of the first column, D, B and C what lies above
// the first row.
fn holders_of(k: usize, m: usize, read: Sides) -> Marks
    requires { BlockOf m k }
    ensures { marks_of result ≡ holds_one m k (groups_of read) }
{
    let column = usize::from(scan_column(k));
    let row = usize::from(scan_row(k));
    holders_at(column == 0, row == 0, column + 1 == m, read)
}

// The same by whether the block stands in the first column, in the first row and in the last column. All marks are computed side by side, with no branch.
fn holders_at(first_column: bool, first_row: bool, last_column: bool, read: Sides) -> Marks
    ensures { marks_of result ≡ holders_at first_column first_row last_column (groups_of read) }
{
    let in_a = read.left | (!first_row & read.corner);
    let in_b = read.above | ((!first_column & read.corner) | (!last_column & read.above_right));
    Marks {
        a: first_column & in_a,
        b: first_row & in_b,
        c: (first_row & last_column) & read.above_right,
        d: (first_row & first_column) & read.corner,
    }
}

// The marks of both.
fn join(p: Marks, q: Marks) -> Marks
    ensures { marks_of result ≡ (λ d. marks_of p d || marks_of q d) }
{
    Marks {
        a: p.a | q.a,
        b: p.b | q.b,
        c: p.c | q.c,
        d: p.d | q.d,
    }
}
