// A picture's size with a slice map that fits it.
ghost use Rattle.std.specs.Prelude.{◌≡◌, [], ◌∷◌, eqb, length, IfOk};
ghost use Rattle.laws.specs.Answer.{◌unless◌, answer};
ghost use Rattle.refusals.specs.Refusal.{number_of};
ghost use Rattle.maps.specs.Neighbours.{SliceMap as Fits, marks_of, marks_at, available};
ghost use Rattle.maps.specs.Size.{total, size_rule, Stands};

use super::neighbours::{Marks, marks_of};
use super::size::{Spot, size_ok};
use refusals::Refusal;

#[derive(Clone, Copy)]
pub struct SliceMap<'a> {
    pub w: u32,
    pub h: u32,
    pub slices: &'a [u16],
    pub ghost fits: { Fits w h slices.now },
}

impl<'a> SliceMap<'a> {
    // Refused where the size is out of range, or the map has not one entry for each macroblock.
    #[inline]
    #[tactic(auto, using(crate::proofs::Sizes::size_is))]
    pub fn new(w: u32, h: u32, slices: &'a [u16]) -> Result<SliceMap<'a>, Refusal>
        ensures answer { number_of result ≡ answer (size_rule w h ∷ 2 unless eqb (length slices.now) (total w h) ∷ []) }
        ensures map { IfOk result (λ m. (m.w ≡ w) × (m.h ≡ h) × (m.slices.now ≡ slices.now)) }
    {
        if !size_ok(w, h) {
            return Err(Refusal::Size);
        }
        if slices.len() != (h as usize) * (w as usize) {
            return Err(Refusal::Room);
        }
        Ok(SliceMap { w, h, slices })
    }

    // Which neighbours of a macroblock of the picture are available.
    #[inline]
    pub fn marks_at(self, x: u32, y: u32) -> Marks
        ensures value { marks_of result ≡ marks_at self.entry.w self.entry.h self.entry.slices.now x y }
        ensures inside { Stands self.entry.w self.entry.h x y → marks_of result ≡ available self.entry.w self.entry.slices.now x y }
    {
        let SliceMap { w, h, slices } = self;
        marks_of(slices, Spot { w, h, x, y })
    }
}
