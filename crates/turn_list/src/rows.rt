// The row counts: how many macroblocks of each row are done from the left without a gap.
ghost use Rattle.std.specs.Prelude.{◌≡◌, ◌+◌, ◌*◌, ◌≤◌, ◌<◌, length};
ghost use Rattle.std.specs.List.{list_all, prefix_len};
ghost use Rattle.laws.specs.Answer.{written};
ghost use Rattle.refusals.specs.Refusal.{number_of};
ghost use Rattle.turn_list.specs.Turn.{gapless, row_counts, count_answer, agree_rule};
ghost use Rattle.turn_list.specs.inner.Rows.{is_one, Fitting};

use maps::size::size_ok;
use refusals::Refusal;

// Brings the row counts into agreement with the done map.
#[tactic(auto, unfolding(crate::specs::Turn::count_answer))]
pub fn count_rows(w: u32, h: u32, done: &[u8], rows: &mut [u32]) -> Result<(), Refusal>
    ensures value { number_of result ≡ count_answer w h (length done.now) (length rows.old) }
    ensures rows_after { rows.new ≡ written (number_of result) rows.old (row_counts w h done.now) }
{
    if !size_ok(w, h) {
        return Err(Refusal::Size);
    }
    if done.len() != (h as usize) * (w as usize) {
        return Err(Refusal::Room);
    }
    if rows.len() != (h as usize) {
        return Err(Refusal::Rows);
    }
    put_counts(w, done, rows);
    Ok(())
}

// Puts the count of each row.
fn put_counts(w: u32, done: &[u8], rows: &mut [u32])
    requires { Fitting w done.now rows.old }
    ensures { rows.new ≡ row_counts w (length rows.old) done.now }
{
    for (y, count) in rows.iter_mut().enumerate() {
        *count = done_from_left(done, w as usize, y);
    }
}

// Whether the counts of all rows agree with the done map.
pub(crate) fn rows_agree(w: u32, done: &[u8], rows: &[u32]) -> bool
    requires { Fitting w done.now rows.now }
    ensures { result ≡ (agree_rule w (length rows.now) done.now rows.now).holds }
{
    for (y, count) in rows.iter().enumerate() {
        if *count != done_from_left(done, w as usize, y) {
            return false;
        }
    }
    true
}

// How many macroblocks of row y are done from the left without a gap. It stands within its callers' loops: a call of its own for each row is slower.
#[inline(always)]
fn done_from_left(done: &[u8], w: usize, y: usize) -> u32
    requires { (w ≤ 120) × (y < 68) × (y * w + w ≤ length done.now) }
    ensures { result ≡ gapless w done.now y }
{
    let first = y * w;
    leading_done(&done[first..first + w]) as u32
}

// How many bytes of a row say done before the first that does not: sixteen at a time, then one by one.
fn leading_done(row: &[u8]) -> usize
    ensures count { result ≡ prefix_len is_one row.now }
    ensures most { result ≤ length row.now }
{
    let (groups, _) = row.as_chunks::<16>();
    let first = 16 * groups.iter().take_while(|group| all_done(*group)).count();
    first + row[first..].iter().take_while(|byte| **byte == 1).count()
}

// Whether sixteen macroblocks are all done. Without a way out they are looked at side by side.
fn all_done(group: &[u8; 16]) -> bool
    ensures { result ≡ list_all is_one group.now }
{
    group.iter().fold(true, |all, byte| all & (*byte == 1))
}
