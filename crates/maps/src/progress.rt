// The progress record: starting a picture, and accepting a macroblock.
ghost use Rattle.std.specs.Prelude.{◌≡◌, [], ◌∷◌, length, replicate, IfOk};
ghost use Rattle.laws.specs.Answer.{written};
ghost use Rattle.refusals.specs.Refusal.{number_of};
ghost use Rattle.maps.specs.Progress.{accepted_of, begun, progress_of, start_answer};

use super::size::size_ok;
use refusals::Refusal;

// The number of accepted macroblocks, and the last one's address.
#[derive(Clone, Copy, Debug, Default, PartialEq, Eq)]
pub struct Progress {
    pub count: u32,
    pub last: u32,
}

// As it is lent: its two numbers.
impl From<[u32; 2]> for Progress {
    ghost from_gives = { λ l p. p ≡ progress_of l };

    fn from([count, last]: [u32; 2]) -> Progress {
        Progress { count, last }
    }
}

impl From<Progress> for [u32; 2] {
    ghost from_gives = { λ p l. l ≡ p.count ∷ p.last ∷ [] };

    fn from(p: Progress) -> [u32; 2] {
        [p.count, p.last]
    }
}

impl Progress {
    // The record after macroblock `address` of `total` is accepted.
    pub fn accepted(self, address: u32, total: u32) -> Progress
        ensures { result ≡ accepted_of self address total }
    {
        Progress {
            count: self.count.saturating_add(1).min(total),
            last: address,
        }
    }

    // The same in place.
    pub fn accept(&mut self, address: u32, total: u32)
        ensures { self.new ≡ accepted_of self.old address total }
    {
        *self = self.accepted(address, total);
    }
}

// Starts a picture: clears its done map, and gives the progress record.
#[tactic(auto, unfolding(crate::specs::Progress::start_answer))]
pub fn start_core(w: u32, h: u32, done: &mut [u8]) -> Result<Progress, Refusal>
    ensures answer { number_of result ≡ start_answer w h (length done.old) }
    ensures begins { IfOk result (λ p. p ≡ begun) }
    ensures map { done.new ≡ written (number_of result) done.old (replicate (length done.old) 0) }
{
    if !size_ok(w, h) {
        return Err(Refusal::Size);
    }
    if done.len() != (h as usize) * (w as usize) {
        return Err(Refusal::Room);
    }
    done.fill(0);
    Ok(Progress::default())
}

// The same with a record that is lent. It is stored only where nothing is refused.
pub fn start(w: u32, h: u32, done: &mut [u8], progress: &mut Progress) -> Result<(), Refusal>
    ensures answer { number_of result ≡ start_answer w h (length done.old) }
    ensures begins { progress.new ≡ written (number_of result) progress.old begun }
    ensures map { done.new ≡ written (number_of result) done.old (replicate (length done.old) 0) }
{
    *progress = start_core(w, h, done)?;
    Ok(())
}
