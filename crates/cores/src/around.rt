// The samples that touch a macroblock in its neighbours, brought into a small plane of three squares by two, around the square in the middle below.
ghost use Rattle.std.specs.Prelude.{◌≡◌, true, ◌+◌, ◌*◌, length};
ghost use Rattle.maps.specs.Neighbours.{marks_of};
ghost use Rattle.macroblock.specs.Rules.{room};
ghost use Rattle.moved.specs.Moved.{SameAround};
ghost use Rattle.cores.specs.inner.Aside.{small_site};
ghost use Rattle.cores.specs.inner.Rects.{Half};

use super::copy::{before, copy_rect};
use maps::neighbours::Marks;
use residual::reconstruct::Window;

// Where the square of side Q begins in its small plane.
pub(crate) fn middle<const Q: usize>() -> Window
    requires { Half Q }
    ensures { (result.off ≡ Q * (3 * Q) + Q) × (result.stride ≡ 3 * Q) }
{
    Window {
        off: Q * (3 * Q) + Q,
        stride: 3 * Q,
    }
}

// Of macroblock (x, y) of a plane whose macroblocks have side Q: the last column of A, the last rows of B and C, and the last sample of D, as they are marked.
pub(crate) fn bring_around<const Q: usize>(
    plane: &[u8],
    stride: usize,
    x: usize,
    y: usize,
    marks: Marks,
    small: &mut [u8],
)
    requires half { Half Q × (length small.old ≡ 2 * Q * (3 * Q)) }
    requires marks_value { room Q (length plane.now) stride x y (marks_of marks) ≡ true }
    ensures { SameAround Q (marks_of marks) (record { stride = stride; x = x; y = y; plane = plane.now }) (small_site Q small.new) }
{
    let here = Window {
        off: y * Q * stride + x * Q,
        stride,
    };
    let to = middle::<Q>();
    let wide = to.stride;
    if marks.a {
        copy_rect::<1>(Q, plane, before(here, 1), small, before(to, 1));
    }
    if marks.b {
        copy_rect::<Q>(1, plane, before(here, stride), small, before(to, wide));
    }
    if marks.c {
        copy_rect::<Q>(
            1,
            plane,
            before(here, stride - Q),
            small,
            before(to, wide - Q),
        );
    }
    if marks.d {
        copy_rect::<1>(
            1,
            plane,
            before(here, stride + 1),
            small,
            before(to, wide + 1),
        );
    }
}
