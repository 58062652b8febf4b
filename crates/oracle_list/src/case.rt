// What is expected of a call: its answer, as the list has it in a byte, and what was written.
ghost use Rattle.std.specs.Prelude.{◌≡◌, true};
ghost use Rattle.refusals.specs.Refusal.{number_of};

use refusals::{Refusal, number_of};

// Whether an answer and the bytes that were written are those of the list.
pub(crate) fn same(answer: Result<(), Refusal>, out: &[u8], wanted: u8, block: &[u8]) -> bool
    ensures { (result ≡ true → (number_of answer ≡ wanted) × (out.now ≡ block.now))
        × (number_of answer ≡ wanted → out.now ≡ block.now → result ≡ true) }
{
    number_of(answer) == u32::from(wanted) && out == block
}

// The same of numbers. Over any type `==` would say less than that both are the same.
pub(crate) fn same_numbers(
    answer: Result<(), Refusal>,
    out: &[i32],
    wanted: u8,
    block: &[i32],
) -> bool
    ensures { (result ≡ true → (number_of answer ≡ wanted) × (out.now ≡ block.now))
        × (number_of answer ≡ wanted → out.now ≡ block.now → result ≡ true) }
{
    number_of(answer) == u32::from(wanted) && out == block
}
