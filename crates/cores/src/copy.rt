// Rectangles of samples, copied from one list into another.
ghost use Rattle.std.specs.Prelude.{◌≡◌, ◌+◌, ◌*◌, ◌-◌, ◌<◌, ◌≤◌, ltb, length, get_or};
ghost use Rattle.laws.specs.Patch.{patch};
ghost use Rattle.cores.specs.inner.Rects.{RectIn, put_rect};

use residual::reconstruct::Window;

// The squares of a block: luma, Cb and Cr.
pub(crate) const LUMA: Window = Window { off: 0, stride: 16 };

pub(crate) const CB: Window = Window {
    off: 256,
    stride: 8,
};

pub(crate) const CR: Window = Window {
    off: 320,
    stride: 8,
};

// The window that begins so far before.
pub(crate) fn before(window: Window, back: usize) -> Window
    requires { back ≤ window.off }
    ensures { (result.off ≡ window.off - back) × (result.stride ≡ window.stride) }
{
    Window {
        off: window.off - back,
        stride: window.stride,
    }
}

// `height` rows of W samples, put from one list into another: the index places a row in both.
pub(crate) fn copy_rect<const W: usize>(
    height: usize,
    from: &[u8],
    taken: Window,
    to: &mut [u8],
    put: Window,
)
    requires width { (0 < W) × (W ≤ put.stride) }
    requires rect_in { RectIn W height taken.off taken.stride (length from.now) × RectIn W height put.off put.stride (length to.old) }
    ensures { to.new ≡ put_rect W height put.off put.stride (λ i j. get_or from.now (taken.off + j * taken.stride + i) 0) to.old }
{
    for j in 0..height {
        copy_row::<W>(
            &from[taken.off + j * taken.stride..],
            &mut to[put.off + j * put.stride..],
        );
    }
}

// The first W samples of a row. All are read before one is written: the compiled code then takes them side by side. By index, since `copy_from_slice` asks
// at run time whether the two overlap, and takes twice as long.
fn copy_row<const W: usize>(from: &[u8], to: &mut [u8])
    requires { (W ≤ length from.now) × (W ≤ length to.old) }
    ensures { to.new ≡ patch (λ i. ltb i W) (λ i. get_or from.now i 0) to.old }
{
    let row = *from.first_chunk::<W>().unwrap();
    for i in 0..W {
        to[i] = row[i];
    }
}
