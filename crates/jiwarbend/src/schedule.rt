// Scheduling: which macroblocks may start now, how many turns a picture takes, and whether another scheduler's order is one. The calls read the maps, and
// write nothing of the picture.
ghost use Rattle.std.specs.Prelude.{◌≡◌, cond, List, ℕ, length, IfOk};
ghost use Rattle.laws.specs.Answer.{written};
ghost use Rattle.refusals.specs.Refusal.{number_of};
ghost use Rattle.calls.specs.Run.{Picture};
ghost use Rattle.order_check.specs.Check.{out_of_place, verdict_of, order_answer};
ghost use Rattle.order_check.specs.Told.{Told};
ghost use Rattle.replays.specs.Replay.{Replay};
ghost use Rattle.turn_count.specs.Count.{turn_count, turn_count_answer};
ghost use Rattle.turn_count.specs.HowMany.{HowMany};
ghost use Rattle.turn_list.specs.Agreed.{Agreed};
ghost use Rattle.turn_list.specs.Turn.{row_counts, count_answer, turn, over, turn_answer};
ghost use Rattle.turns.specs.OneTurn.{OneTurn};
ghost use Rattle.turns.specs.TurnByTurn.{TurnByTurn};

use refusals::Refusal;

// Counts that were counted are never refused, and counts that are off always are.
pub fn jiwarbend_count_rows(w: u32, h: u32, done: &[u8], rows: &mut [u32]) -> Result<(), Refusal>
    ensures value { number_of result ≡ count_answer w h (length done.now) (length rows.old) }
    ensures rows_after { rows.new ≡ written (number_of result) rows.old (row_counts w h done.now) }
    ensures by_index { (slices : List ℕ) → Agreed w h slices done.now }
{
    turn_list::rows::count_rows(w, h, done, rows)
}

// There is a turn while a macroblock is undone; whoever takes its macroblocks, in whatever order, meets no refusal and leaves the same.
pub fn jiwarbend_turn(
    w: u32,
    h: u32,
    done: &[u8],
    slices: &[u16],
    rows: &[u32],
    list: &mut [u32],
) -> Result<u32, Refusal>
    ensures value { number_of result ≡ turn_answer w h slices.now done.now rows.now (length list.old) }
    ensures list_after { list.new ≡ written (number_of result) list.old (over (turn w h slices.now done.now) list.old) }
    ensures how_many { IfOk result (λ many. many ≡ length (turn w h slices.now done.now)) }
    ensures one_turn { (g : Picture) → OneTurn g }
{
    turn_list::turn::turn(w, h, done, slices, rows, list)
}

// How many turns a picture takes: so many whole turns finish it, whoever takes them and in whatever order, and no fewer.
pub fn jiwarbend_turns(w: u32, h: u32, slices: &[u16]) -> Result<u32, Refusal>
    ensures value { number_of result ≡ turn_count_answer w h (length slices.now) }
    ensures turns { IfOk result (λ turns. turns ≡ turn_count w h slices.now) }
    ensures how_many { number_of result ≡ 0 → HowMany w h slices.now }
    ensures turn_by_turn { (g : Picture) → TurnByTurn g }
{
    turn_count::count::count_turns(w, h, slices)
}

// Whether a list names every macroblock once, each after all its available neighbours: such a list, replayed with acceptable records, meets no refusal and
// finishes the picture.
pub fn jiwarbend_check_order(w: u32, h: u32, slices: &[u16], order: &[u32]) -> Result<bool, Refusal>
    ensures value { number_of result ≡ order_answer w h (length slices.now) order.now }
    ensures verdict { IfOk result (λ yes. verdict_of w slices.now order.now ≡ cond yes 1 0) }
    ensures told { number_of result ≡ 0 → Told w h slices.now }
    ensures replay { (g : Picture) → Replay g }
{
    order_check::check::check_order(w, h, slices, order)
}

// Where in such a list the first entry is out of place: before it all are in place.
pub fn jiwarbend_out_of_place(w: u32, h: u32, slices: &[u16], order: &[u32]) -> Result<u32, Refusal>
    ensures value { number_of result ≡ order_answer w h (length slices.now) order.now }
    ensures place { IfOk result (λ place. place ≡ out_of_place w slices.now order.now) }
    ensures told { number_of result ≡ 0 → Told w h slices.now }
{
    order_check::check::out_of_place(w, h, slices, order)
}
