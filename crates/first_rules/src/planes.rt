// The memory that is lent for a picture.
ghost use Rattle.std.specs.Prelude.{◌≡◌, ◌≤◌, length};
ghost use Rattle.maps.specs.Size.{Size};
ghost use Rattle.calls.specs.Planes.{three, plane_ok, room_ok};

use macroblock::PlanesRef;

// Whether a plane has a good stride and enough bytes; `side` is a macroblock's.
#[tactic(auto, unfolding(calls::specs::Planes::plane_ok))]
fn plane_ok(side: usize, w: usize, h: usize, stride: usize, bytes: usize) -> bool
    requires { (1 ≤ side) × (side ≤ 16) × Size w h }
    ensures { result ≡ plane_ok side w h stride bytes }
{
    let width = side * w;
    let last = side * h - 1;
    width <= stride && stride <= 4096 && last * stride + width <= bytes
}

// Whether the three planes, both maps and the count keep to the rules.
#[tactic(auto, unfolding(calls::specs::Planes::room_ok))]
pub(crate) fn room_ok(
    w: usize,
    h: usize,
    planes: PlanesRef,
    done: &[u8],
    slices: &[u16],
    accepted: u32,
) -> bool
    requires { Size w h }
    ensures { result ≡ room_ok w h (three planes.entry.strides.luma planes.entry.strides.cb planes.entry.strides.cr)
        (three (length planes.entry.luma.now) (length planes.entry.cb.now) (length planes.entry.cr.now))
        (length done.now) (length slices.now) accepted }
{
    let strides = planes.strides;
    let total = h * w;
    plane_ok(16, w, h, strides.luma, planes.luma.len())
        && plane_ok(8, w, h, strides.cb, planes.cb.len())
        && plane_ok(8, w, h, strides.cr, planes.cr.len())
        && done.len() == total
        && slices.len() == total
        && accepted as usize <= total
}
