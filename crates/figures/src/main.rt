// Runs the limits that the rules name and that are not proved as figures: strides, offsets, lengths and numbers of the block calls, sizes, maps and
// records of the picture calls, the turn list, checks of orders, pictures rebuilt in two orders, and one with a slice lost. Each line says what was called
// and what came of it.
#![tactic(auto)]

mod blocks; // calls on one block
mod lost; // a picture with a slice lost
mod offer; // a record to a picture
mod orders; // another scheduler's order
mod pictures; // calls on a picture
mod ranges; // blocks of coefficients at the ends of the range
mod shuffled; // pictures in two orders
mod tell;
mod turn_by_turn; // the turn list, and how many turns there are

use std::io;

fn main(rt: HostRuntime) -> io::Result<()> {
    rt.write_all(b"block calls: what was called, and the answer\n")?;
    blocks::strides(&rt)?;
    blocks::places(&rt)?;
    ranges::alone(&rt)?;
    ranges::halfway(&rt)?;
    ranges::sums(&rt)?;
    blocks::numbers(&rt)?;
    blocks::plane_forms(&rt)?;
    rt.write_all(b"picture calls: what was called, and the answer\n")?;
    pictures::starts(&rt)?;
    pictures::sizes(&rt)?;
    pictures::slices(&rt)?;
    pictures::waiting(&rt)?;
    pictures::refusals(&rt)?;
    pictures::ranges(&rt)?;
    turn_by_turn::counts(&rt)?;
    turn_by_turn::turns(&rt)?;
    turn_by_turn::whole_picture(&rt)?;
    turn_by_turn::how_many_turns(&rt)?;
    orders::orders(&rt)?;
    shuffled::compare(&rt)?;
    lost::lose(&rt)
}
