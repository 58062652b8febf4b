// Intra prediction of an 8x8 block of chroma samples (clause 8.3.4): 0 DC, 1 horizontal, 2 vertical, 3 plane.
ghost use Rattle.std.specs.Prelude.{◌≡◌, ◌++◌, ◌+◌, ◌*◌, ◌/◌, ◌%◌, ◌≤◌, length, get_or, drop, IfOk};
ghost use Rattle.laws.specs.Answer.{written};
ghost use Rattle.laws.specs.Table.{table, block_of, onto};
ghost use Rattle.refusals.specs.Refusal.{number_of};
ghost use Rattle.basics.specs.Marks.{permitted_chroma, mode_answer, pred_answer};
ghost use Rattle.basics.specs.Modes.{chroma_mode};
ghost use Rattle.basics.specs.Near.{Near, near};
ghost use Rattle.samples.specs.IntraChroma.{region_dc, chroma_dc, pred_c};
ghost use Rattle.samples.specs.inner.Line.{Round, Stands};

use super::line::{Around, across, down};
use super::plane_mode::plane_over;
use super::whole::{Whole, pred, pred_into};
use basics::beside::Beside;
use basics::marks::Sides;
use basics::mean::mean_of;
use basics::modes::ChromaMode;
use refusals::Refusal;

// The block of DC, from the marks of above and left and their samples, in arrays of eight, so that nothing is refused; what stands beside a block comes in lists.
pub fn chroma8x8_dc(avail_top: bool, avail_left: bool, top: &[u8; 8], left: &[u8; 8]) -> [u8; 64]
    ensures { result ≡ block_of 8 (chroma_dc avail_top avail_left (near top.now left.now 0)) }
{
    let sides = Sides {
        above: avail_top,
        left: avail_left,
        corner: false,
        above_right: false,
    };
    let beside = Beside {
        sides,
        above: top,
        left,
        corner: 0,
    };
    let mut out = [0u8; 64];
    dc_chroma(Around::from(beside), &mut out);
    out
}

// The block of a mode, from the marks, the row above, the column to the left and the sample at the corner.
pub fn chroma8x8_pred(
    mode: u8,
    sides: Sides,
    top: &[u8; 8],
    left: &[u8; 8],
    corner: u8,
) -> Result<[u8; 64], Refusal>
    ensures answer { number_of result ≡ mode_answer 3 (permitted_chroma sides.above sides.left sides.corner) mode }
    ensures block { IfOk result (λ b. b ≡ block_of 8 (pred_c mode sides.above sides.left (near top.now left.now corner))) }
{
    pred::<ChromaMode, 64>(mode, sides, top, left, corner)
}

// The same over lists, the block put into lent memory. Inlined, so that what stands beside the block stays in registers: a call of its own hands it on
// through memory, and takes 2 to 5 nanoseconds longer.
#[inline(always)]
pub fn chroma8x8_pred_into(mode: u8, beside: Beside, out: &mut [u8]) -> Result<(), Refusal>
    ensures answer { number_of result ≡ pred_answer 8 8 (length beside.entry.above.now) (length beside.entry.left.now)
        (length out.old) 3 (permitted_chroma beside.entry.sides.above beside.entry.sides.left beside.entry.sides.corner) mode }
    ensures lent { out.new ≡ written (number_of result) out.old
        (block_of 8 (pred_c mode beside.entry.sides.above beside.entry.sides.left
        (near beside.entry.above.now beside.entry.left.now beside.entry.corner))) }
{
    pred_into::<ChromaMode>(mode, beside, out)
}

impl Whole for ChromaMode {
    ghost SIDE = { 8 };

    ghost number = { chroma_mode };

    ghost permits = { permitted_chroma };

    ghost predicted = { pred_c };

    const SIDE: u8 = 8;

    fn checked(mode: u8, sides: Sides) -> Result<ChromaMode, Refusal> {
        ChromaMode::permitted(mode, sides)
    }

    #[inline(always)]
    fn predict(self, around: Around, out: &mut [u8]) {
        match self {
            ChromaMode::Dc => dc_chroma(around, out),
            ChromaMode::Horizontal => across::<8>(around.left, out),
            ChromaMode::Vertical => down::<8>(around.above, out),
            ChromaMode::Plane => plane_over(4, 34, around, out),
        }
    }
}

// DC, which does not read the corner.
#[inline(always)]
fn dc_chroma(around: Around, out: &mut [u8])
    requires { Round 8 around × (64 ≤ length out.old) }
    ensures { (p : Near) → Stands 8 around.entry p
        → out.new ≡ block_of 8 (chroma_dc around.entry.sides.above around.entry.sides.left p) ++ drop 64 out.old }
{
    let d = regions(around);
    spread(&d, out);
}

// The means of the regions (0, 0), (4, 0), (0, 4) and (4, 4).
#[inline(always)]
fn regions(around: Around) -> [u8; 4]
    requires { Round 8 around }
    ensures { (p : Near) → Stands 8 around.entry p
        → result ≡ table 4 (λ k. region_dc around.entry.sides.above around.entry.sides.left p (k % 2 * 4) (k / 2 * 4)) }
{
    let above = around.sides.above;
    let left = around.sides.left;
    let a0 = around.above.sum(0, 4);
    let a4 = around.above.sum(4, 4);
    let l0 = around.left.sum(0, 4);
    let l4 = around.left.sum(4, 4);
    [
        mean_of(4, above, left, a0, l0),
        mean_of(4, above, left & !above, a4, l0),
        mean_of(4, above & !left, left, a0, l4),
        mean_of(4, above, left, a4, l4),
    ]
}

// Each region's mean over its 4x4 samples.
fn spread(d: &[u8; 4], out: &mut [u8])
    requires { 64 ≤ length out.old }
    ensures { out.new ≡ onto 64 (λ k. get_or d.now (k / 32 * 2 + k % 8 / 4) 0) out.old }
{
    // y is the row's number, from which its place and its two regions follow.
    for y in 0..8 {
        out[8 * y..8 * y + 4].fill(d[y / 4 * 2]);
        out[8 * y + 4..8 * y + 8].fill(d[y / 4 * 2 + 1]);
    }
}
