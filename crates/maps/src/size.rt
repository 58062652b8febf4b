// Sizes of pictures, and places in them, in macroblocks.
ghost use Rattle.std.specs.Prelude.{◌≡◌};
ghost use Rattle.maps.specs.Size.{size_ok, place_ok};

// Where a macroblock stands: the picture's size, and the macroblock's column and row.
#[derive(Clone, Copy, Debug, PartialEq, Eq)]
pub struct Spot {
    pub w: u32,
    pub h: u32,
    pub x: u32,
    pub y: u32,
}

// Whether W is 1..120 and H is 1..68.
#[tactic(auto, unfolding(crate::specs::Size::size_ok))]
pub fn size_ok(w: u32, h: u32) -> bool
    ensures { result ≡ size_ok w h }
{
    w >= 1 && w <= 120 && h >= 1 && h <= 68
}

// Whether (x, y) is a macroblock of the picture.
#[tactic(auto, unfolding(crate::specs::Size::place_ok))]
pub fn place_ok(spot: Spot) -> bool
    ensures { result ≡ place_ok spot.w spot.h spot.x spot.y }
{
    spot.x < spot.w && spot.y < spot.h
}
