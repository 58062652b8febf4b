// The second half of a macroblock call: a block of samples is put into the planes, and the macroblock is marked and counted.
ghost use Rattle.std.specs.Prelude.{◌≡◌, ℕ, ◌+◌, ◌*◌, ◌-◌, ◌≤◌, length, get_or};
ghost use Rattle.maps.specs.Progress.{progress_of};
ghost use Rattle.macroblock.specs.Kinds.{SameLent};
ghost use Rattle.macroblock.specs.Square.{place_at, put_block};
ghost use Rattle.macroblock.specs.declared.Record.{Record};
ghost use Rattle.calls.specs.Rebuild.{call, lent};
ghost use Rattle.halves.specs.Halves.{Commits};
ghost use Rattle.cores.specs.inner.Rects.{Half};
ghost use Rattle.refusals.specs.Refusal.{number_of};

use super::copy::{CB, CR, LUMA, copy_rect};
use first_rules::refuse;
use macroblock::Planes;
use maps::progress::Progress;
use maps::size::Spot;
use refusals::Refusal;
use residual::reconstruct::Window;

// Puts a block that `compute` gave into the planes, whatever its record was. The progress record is its two numbers, stored only where the call is taken.
pub fn commit(
    spot: Spot,
    planes: &mut Planes,
    done: &mut [u8],
    slices: &[u16],
    progress: &mut [u32; 2],
    block: &[u8],
) -> Result<(), Refusal>
    ensures commits { (m : Record) → Commits (call spot planes.old.strides slices.now m) block.now
        (lent planes.old.luma.now planes.old.cb.now planes.old.cr.now done.old (progress_of progress.old))
        (number_of result)
        (lent planes.new.luma.now planes.new.cb.now planes.new.cr.now done.new (progress_of progress.new)) }
    ensures lent { SameLent planes.old planes.new }
{
    let before = Progress::from(*progress);
    let long = block.len() == 384;
    refuse(spot, planes.shown(), done, slices, before, long)?;
    let strides = planes.strides;
    let x = spot.x as usize;
    let y = spot.y as usize;
    put_square::<16>(block, LUMA, planes.luma, strides.luma, x, y);
    put_square::<8>(block, CB, planes.cb, strides.cb, x, y);
    put_square::<8>(block, CR, planes.cr, strides.cr, x, y);
    let here = spot.y * spot.w + spot.x;
    done[here as usize] = 1;
    *progress = before.accepted(here, spot.h * spot.w).into();
    Ok(())
}

// The square of side Q at (x, y), put into a plane from a square of the block.
fn put_square<const Q: usize>(
    block: &[u8],
    square: Window,
    plane: &mut [u8],
    stride: usize,
    x: usize,
    y: usize,
)
    requires half { Half Q × (square.stride ≡ Q) × (square.off + Q * Q ≤ length block.now) }
    requires q_bound { (x * Q + Q ≤ stride) × ((y * Q + (Q - 1)) * stride + (x * Q + Q) ≤ length plane.old) }
    ensures { plane.new ≡ put_block Q (place_at stride y x) (λ i j. get_or block.now (square.off + (j * Q + i)) 0) plane.old }
{
    let here = Window {
        off: y * Q * stride + x * Q,
        stride,
    };
    copy_rect::<Q>(Q, block, square, plane, here);
}
