// A macroblock's square in each of its planes, block by block.
ghost use Rattle.std.specs.Prelude.{◌≡◌, List, ℕ, ◌*◌, ◌≤◌, ◌<◌, ℤ, length};
ghost use Rattle.maps.specs.Neighbours.{marks_of};
ghost use Rattle.cut.specs.Cut.{four, eight, whole, cut_for, used};
ghost use Rattle.cut.specs.Kind.{kind_number};
ghost use Rattle.macroblock.specs.Kinds.{SameLent, luma_rule, chroma_rule};
ghost use Rattle.macroblock.specs.Square.{part, all_parts};
ghost use Rattle.macroblock.specs.inner.Blocks.{LumaReady, ChromaReady, Transformed, first_for};

use super::place::{Place, Spot, place_of};
use super::predict::{Chroma8x8, Luma4x4, Luma8x8, Luma16x16, predict};
use super::put::{Residuals, put_4x4, put_8x8, put_16x16, put_quad};
use super::{Planes, RecordRef};
use cut::kind::Kind;
use cut::{sides_of, square_sides};
use residual::reconstruct::Window;

// All three squares of a record that is not refused.
pub(crate) fn all_squares(
    spot: Spot,
    planes: &mut Planes,
    kind: Kind,
    rec: RecordRef,
    residuals: Residuals,
)
    requires luma_ready { LumaReady (kind_number kind) spot (length planes.old.luma.now) rec.modes.now }
    requires cb_ready { ChromaReady rec.chroma_mode spot.strides.cb spot (length planes.old.cb.now) }
    requires cr_ready { ChromaReady rec.chroma_mode spot.strides.cr spot (length planes.old.cr.now) }
    ensures lent { SameLent planes.old planes.new }
    ensures luma_after { (numbers : List ℤ) → Transformed (first_for (kind_number kind)) numbers residuals.entry.list.now → planes.new.luma.now
        ≡ all_parts (cut_for (kind_number kind)) (luma_rule (kind_number kind) rec.entry.modes.now numbers) spot.strides.luma spot.x spot.y
        (marks_of spot.marks) planes.old.luma.now }
    ensures cb_after { (numbers : List ℤ) → Transformed (first_for (kind_number kind)) numbers residuals.entry.list.now → planes.new.cb.now
        ≡ all_parts (whole 8) (chroma_rule rec.entry.chroma_mode numbers 16) spot.strides.cb spot.x spot.y (marks_of spot.marks) planes.old.cb.now }
    ensures cr_after { (numbers : List ℤ) → Transformed (first_for (kind_number kind)) numbers residuals.entry.list.now → planes.new.cr.now
        ≡ all_parts (whole 8) (chroma_rule rec.entry.chroma_mode numbers 20) spot.strides.cr spot.x spot.y (marks_of spot.marks) planes.old.cr.now }
{
    luma_square(planes.luma, spot, kind, rec.modes, residuals);
    chroma_square(
        planes.cb,
        spot.strides.cb,
        spot,
        rec.chroma_mode,
        residuals,
        4,
    );
    chroma_square(
        planes.cr,
        spot.strides.cr,
        spot,
        rec.chroma_mode,
        residuals,
        5,
    );
}

// Luma block k of kind 0.
fn block_4x4(plane: &mut [u8], spot: Spot, modes: &[u8], residuals: Residuals, k: usize)
    requires { LumaReady 0 spot (length plane.old) modes.now × (k < 16) }
    ensures { (numbers : List ℤ) → Transformed 0 numbers residuals.entry.list.now → plane.new
        ≡ part four (luma_rule 0 modes.now numbers) spot.strides.luma spot.x spot.y (marks_of spot.marks) k plane.old }
{
    let block = place_of(k, 4, spot);
    let sides = sides_of(k, 4, spot.marks);
    let mut pred = [0u8; 16];
    predict::<4, 8, Luma4x4>(plane, block, sides, modes[k], &mut pred);
    put_4x4(plane, block, &pred, residuals, k);
}

// Luma block k of kind 1.
fn block_8x8(plane: &mut [u8], spot: Spot, modes: &[u8], residuals: Residuals, k: usize)
    requires { LumaReady 1 spot (length plane.old) modes.now × (k < 4) }
    ensures { (numbers : List ℤ) → Transformed 16 numbers residuals.entry.list.now → plane.new
        ≡ part eight (luma_rule 1 modes.now numbers) spot.strides.luma spot.x spot.y (marks_of spot.marks) k plane.old }
{
    let block = place_of(k, 2, spot);
    let sides = sides_of(k, 2, spot.marks);
    let mut pred = [0u8; 64];
    predict::<8, 16, Luma8x8>(plane, block, sides, modes[k], &mut pred);
    put_8x8(plane, block, &pred, residuals, k);
}

// The luma block of kind 2.
fn block_16x16(plane: &mut [u8], spot: Spot, modes: &[u8], residuals: Residuals)
    requires { LumaReady 2 spot (length plane.old) modes.now }
    ensures { (numbers : List ℤ) → Transformed 0 numbers residuals.entry.list.now → plane.new
        ≡ part (whole 16) (luma_rule 2 modes.now numbers) spot.strides.luma spot.x spot.y (marks_of spot.marks) 0
        plane.old }
{
    let place = Place {
        stride: spot.strides.luma,
        row: spot.y,
        column: spot.x,
    };
    let sides = square_sides(spot.marks);
    let mut pred = [0u8; 256];
    predict::<16, 16, Luma16x16>(plane, place, sides, modes[0], &mut pred);
    put_16x16(plane, place, &pred, residuals);
}

// Luma block k of any kind.
fn luma_block(
    plane: &mut [u8],
    spot: Spot,
    kind: Kind,
    modes: &[u8],
    residuals: Residuals,
    k: usize,
)
    requires { LumaReady (kind_number kind) spot (length plane.old) modes.now × (k < used (kind_number kind)) }
    ensures { (numbers : List ℤ) → Transformed (first_for (kind_number kind)) numbers residuals.entry.list.now → plane.new
        ≡ part (cut_for (kind_number kind)) (luma_rule (kind_number kind) modes.now numbers) spot.strides.luma spot.x spot.y
        (marks_of spot.marks) k plane.old }
{
    match kind {
        Kind::Luma4x4 => block_4x4(plane, spot, modes, residuals, k),
        Kind::Luma8x8 => block_8x8(plane, spot, modes, residuals, k),
        Kind::Luma16x16 => block_16x16(plane, spot, modes, residuals),
    }
}

// The luma square: its blocks in scan order.
fn luma_square(plane: &mut [u8], spot: Spot, kind: Kind, modes: &[u8], residuals: Residuals)
    requires { LumaReady (kind_number kind) spot (length plane.old) modes.now }
    ensures { (numbers : List ℤ) → Transformed (first_for (kind_number kind)) numbers residuals.entry.list.now → plane.new
        ≡ all_parts (cut_for (kind_number kind)) (luma_rule (kind_number kind) modes.now numbers) spot.strides.luma spot.x spot.y
        (marks_of spot.marks) plane.old }
{
    // a block by its number, with which it is placed and has its mode
    for k in 0..kind.used_modes() {
        luma_block(plane, spot, kind, modes, residuals, k);
    }
}

// A chroma plane's square, whose residuals are those of quad q.
fn chroma_square(
    plane: &mut [u8],
    stride: usize,
    spot: Spot,
    mode: u8,
    residuals: Residuals,
    q: usize,
)
    requires chroma_ready { ChromaReady mode stride spot (length plane.old) }
    requires q_bound { q < 6 }
    ensures { (first : ℕ) (numbers : List ℤ) → first ≤ 4 * q → Transformed first numbers residuals.entry.list.now → plane.new
        ≡ all_parts (whole 8) (chroma_rule mode numbers (4 * q)) stride spot.x spot.y (marks_of spot.marks) plane.old }
{
    let place = Place {
        stride,
        row: spot.y,
        column: spot.x,
    };
    let sides = square_sides(spot.marks);
    let mut pred = [0u8; 64];
    predict::<8, 8, Chroma8x8>(plane, place, sides, mode, &mut pred);
    put_quad(
        plane,
        place,
        &pred,
        Window { off: 0, stride: 8 },
        residuals,
        q,
    );
}
