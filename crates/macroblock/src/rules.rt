// What a macroblock call is refused for before its numbers are read: a square or a neighbour outside its plane, or lists of other lengths (2), an unknown
// record (6) and a mode that is not permitted (7).
ghost use Rattle.std.specs.Prelude.{◌≡◌, true, IfOk, List, ℕ, ◌<◌, ◌≤◌, leb, ℤ, length, get_or};
ghost use Rattle.laws.specs.Answer.{answer};
ghost use Rattle.laws.specs.Table.{all_below};
ghost use Rattle.refusals.specs.Refusal.{number_of};
ghost use Rattle.maps.specs.Neighbours.{marks_of};
ghost use Rattle.cut.specs.Kind.{kind_number};
ghost use Rattle.macroblock.specs.Kinds.{record_in, record_of};
ghost use Rattle.macroblock.specs.Rules.{room, rooms, last_mode, permitted_for, known, permitted, early_rules};

use super::RecordRef;
use super::place::Spot;
use basics::marks::{Sides, permits_16x16, permits_chroma, permits_nxn};
use cut::kind::Kind;
use cut::{sides_of, square_sides};
use maps::neighbours::Marks;
use refusals::Refusal;

// Whether the square of side q at (x, y), and each marked neighbour, lies in a plane of `len` samples.
#[tactic(auto, unfolding(crate::specs::Rules::room))]
fn has_room(q: usize, len: usize, stride: usize, x: usize, y: usize, marks: Marks) -> bool
    requires { (0 < q) × (q ≤ 16) × (x < 4294967296) × (y < 4294967296) }
    ensures { result ≡ room q len stride x y (marks_of marks) }
{
    let end = x * q + q;
    stride <= 4096
        && end <= stride
        && (y * q + (q - 1)) * stride + end <= len
        && (!marks.a || x > 0)
        && (!marks.b || y > 0)
        && (!marks.c || (y > 0 && end + q <= stride))
        && (!marks.d || (x > 0 && y > 0))
}

// The same of three planes of so many samples.
pub(crate) fn has_rooms(spot: Spot, luma: usize, cb: usize, cr: usize) -> bool
    requires { (spot.x < 4294967296) × (spot.y < 4294967296) }
    ensures { result ≡ rooms spot.x spot.y luma cb cr spot.strides (marks_of spot.marks) }
{
    has_room(16, luma, spot.strides.luma, spot.x, spot.y, spot.marks)
        && has_room(8, cb, spot.strides.cb, spot.x, spot.y, spot.marks)
        && has_room(8, cr, spot.strides.cr, spot.x, spot.y, spot.marks)
}

// What a record is refused for at these marks before its numbers are read; else its kind.
pub(crate) fn accept(marks: Marks, rec: RecordRef) -> Result<Kind, Refusal>
    ensures value { number_of result ≡ answer (early_rules (marks_of marks) (record_in rec.entry)) }
    ensures kind { IfOk result (λ kind. kind_number kind ≡ rec.entry.kind) }
{
    if rec.modes.len() != 16 || rec.numbers.len() != 384 {
        return Err(Refusal::Room);
    }
    let kind = Kind::try_from(rec.kind)?;
    if !is_known(kind, rec.modes, rec.chroma_mode) {
        return Err(Refusal::Unknown);
    }
    if !is_permitted(marks, kind, rec.modes, rec.chroma_mode) {
        return Err(Refusal::NotPermitted);
    }
    Ok(kind)
}

// Whether each mode that a kind uses and the chroma mode are known, and each unused mode is 0.
fn is_known(kind: Kind, modes: &[u8], chroma_mode: u8) -> bool
    requires { length modes.now ≡ 16 }
    ensures { (numbers : List ℤ) → result ≡ known (record_of (kind_number kind) modes.now chroma_mode numbers) }
{
    let n = kind.used_modes();
    let used = greatest_of(&modes[..n]);
    let unused = greatest_of(&modes[n..]);
    (used <= last_mode(kind)) & (unused == 0) & (chroma_mode <= 3)
}

// The greatest of some modes, or 0. Without a way out at the first that is too great, many are taken at once.
fn greatest_of(modes: &[u8]) -> u8
    ensures { (a : ℕ) → leb result a ≡ all_below (length modes.now) (λ k. leb (get_or modes.now k 0) a) }
{
    modes.iter().fold(0, |g, mode| g.max(*mode))
}

fn last_mode(kind: Kind) -> u8
    ensures { result ≡ last_mode (kind_number kind) }
{
    match kind {
        Kind::Luma4x4 | Kind::Luma8x8 => 8,
        Kind::Luma16x16 => 3,
    }
}

// Whether each used mode of a known record is permitted where it stands. Where left, above and corner are marked, every known mode is.
fn is_permitted(marks: Marks, kind: Kind, modes: &[u8], chroma_mode: u8) -> bool
    requires sixteen { length modes.now ≡ 16 }
    requires known { (numbers : List ℤ) → known (record_of (kind_number kind) modes.now chroma_mode numbers) ≡ true }
    ensures { (numbers : List ℤ) → result ≡ permitted (marks_of marks) (record_of (kind_number kind) modes.now chroma_mode numbers) }
{
    if marks.a && marks.b && marks.d {
        return true;
    }
    let m = kind.across();
    // by its number a block has its mode and its sides
    for k in 0..kind.used_modes() {
        if !permits(kind, sides_of(k, m, marks), modes[k]) {
            return false;
        }
    }
    permits_chroma(chroma_mode, square_sides(marks))
}

fn permits(kind: Kind, sides: Sides, mode: u8) -> bool
    ensures { result ≡ permitted_for (kind_number kind) sides mode }
{
    match kind {
        Kind::Luma4x4 | Kind::Luma8x8 => permits_nxn(mode, sides),
        Kind::Luma16x16 => permits_16x16(mode, sides),
    }
}
