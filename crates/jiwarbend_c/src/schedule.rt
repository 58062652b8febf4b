// Scheduling for C: which macroblocks may start now, how many turns a picture takes, and whether another scheduler's order is one.
ghost use Rattle.std.specs.Prelude.{◌≡◌, List, ℕ, length, IfOk};
ghost use Rattle.laws.specs.Answer.{written};
ghost use Rattle.refusals.specs.Refusal.{number_of};
ghost use Rattle.calls.specs.Run.{Picture};
ghost use Rattle.order_check.specs.Check.{out_of_place, verdict_of, order_answer};
ghost use Rattle.order_check.specs.Told.{Told};
ghost use Rattle.replays.specs.Replay.{Replay};
ghost use Rattle.turn_count.specs.Count.{turn_count, turn_count_answer};
ghost use Rattle.turn_count.specs.HowMany.{HowMany};
ghost use Rattle.turn_list.specs.Agreed.{Agreed};
ghost use Rattle.turn_list.specs.Turn.{row_counts, count_answer, turn, over, turn_answer};
ghost use Rattle.turns.specs.OneTurn.{OneTurn};
ghost use Rattle.turns.specs.TurnByTurn.{TurnByTurn};

use refusals::{Refusal, number_of};

#[unsafe(no_mangle)]
pub extern "C" fn jiwarbend_count_rows(w: u32, h: u32, done: &[u8], rows: &mut [u32]) -> u32
    ensures value { result ≡ count_answer w h (length done.now) (length rows.old) }
    ensures rows_after { rows.new ≡ written result rows.old (row_counts w h done.now) }
    ensures by_index { (slices : List ℕ) → Agreed w h slices done.now }
{
    number_of(jiwarbend::schedule::jiwarbend_count_rows(w, h, done, rows))
}

#[unsafe(no_mangle)]
pub extern "C" fn jiwarbend_turn(
    w: u32,
    h: u32,
    done: &[u8],
    slices: &[u16],
    rows: &[u32],
    list: &mut [u32],
    how_many: &mut u32,
) -> u32
    ensures value { result ≡ turn_answer w h slices.now done.now rows.now (length list.old) }
    ensures list_after { list.new ≡ written result list.old (over (turn w h slices.now done.now) list.old) }
    ensures how_many_after { how_many.new ≡ written result how_many.old (length (turn w h slices.now done.now)) }
    ensures one_turn { (g : Picture) → OneTurn g }
{
    told(
        jiwarbend::schedule::jiwarbend_turn(w, h, done, slices, rows, list),
        how_many,
    )
}

#[unsafe(no_mangle)]
pub extern "C" fn jiwarbend_turns(w: u32, h: u32, slices: &[u16], turns: &mut u32) -> u32
    ensures value { result ≡ turn_count_answer w h (length slices.now) }
    ensures turns_after { turns.new ≡ written result turns.old (turn_count w h slices.now) }
    ensures how_many { result ≡ 0 → HowMany w h slices.now }
    ensures turn_by_turn { (g : Picture) → TurnByTurn g }
{
    told(jiwarbend::schedule::jiwarbend_turns(w, h, slices), turns)
}

#[unsafe(no_mangle)]
pub extern "C" fn jiwarbend_check_order(
    w: u32,
    h: u32,
    slices: &[u16],
    order: &[u32],
    verdict: &mut u32,
) -> u32
    ensures value { result ≡ order_answer w h (length slices.now) order.now }
    ensures verdict_after { verdict.new ≡ written result verdict.old (verdict_of w slices.now order.now) }
    ensures told { result ≡ 0 → Told w h slices.now }
    ensures replay { (g : Picture) → Replay g }
{
    let answer = jiwarbend::schedule::jiwarbend_check_order(w, h, slices, order);
    told(answer.map(u32::from), verdict)
}

#[unsafe(no_mangle)]
pub extern "C" fn jiwarbend_out_of_place(
    w: u32,
    h: u32,
    slices: &[u16],
    order: &[u32],
    place: &mut u32,
) -> u32
    ensures value { result ≡ order_answer w h (length slices.now) order.now }
    ensures place_after { place.new ≡ written result place.old (out_of_place w slices.now order.now) }
    ensures told { result ≡ 0 → Told w h slices.now }
{
    told(
        jiwarbend::schedule::jiwarbend_out_of_place(w, h, slices, order),
        place,
    )
}

// What C gets of a call that tells a number: 0, with the number in its place, or the refusal's number.
fn told(outcome: Result<u32, Refusal>, place: &mut u32) -> u32
    ensures value { result ≡ number_of outcome }
    ensures place_after { (n : ℕ) → IfOk outcome (λ told. told ≡ n) → place.new ≡ written (number_of outcome) place.old n }
{
    if let Ok(number) = outcome {
        *place = number;
    }
    number_of(outcome)
}
