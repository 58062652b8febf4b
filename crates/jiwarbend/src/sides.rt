// C's marks as the sides of a block.
ghost use Rattle.std.specs.Prelude.{◌≡◌, false};

use basics::marks::Sides;

// Above, left and the corner.
pub(crate) fn three(above: bool, left: bool, corner: bool) -> Sides
    ensures { result ≡ record { above = above; left = left; corner = corner; above_right = false } }
{
    four(above, left, corner, false)
}

// And above and to the right.
pub(crate) fn four(above: bool, left: bool, corner: bool, above_right: bool) -> Sides
    ensures { result ≡ record { above = above; left = left; corner = corner; above_right = above_right } }
{
    Sides {
        above,
        left,
        corner,
        above_right,
    }
}
