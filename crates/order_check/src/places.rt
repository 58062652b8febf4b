// Where in the list each macroblock comes: its place, and u16::MAX while it is not named.
ghost use Rattle.std.specs.Prelude.{◌≡◌, length};
ghost use Rattle.order_check.specs.inner.Places.{Inside, Noted};

// Notes the places of a list up to the first entry that names a macroblock again, and answers that entry's place, or the list's length.
pub(crate) fn note_places(order: &[u32], places: &mut [u16]) -> u16
    requires { Inside order.now places.old }
    ensures { Noted order.now result (length places.old) places.new }
{
    for (i, a) in order.iter().enumerate() {
        let place = &mut places[*a as usize];
        if *place != u16::MAX {
            return i as u16;
        }
        *place = i as u16;
    }
    order.len() as u16
}
