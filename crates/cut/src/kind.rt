// The three ways in which a macroblock's luma is cut.
ghost use Rattle.std.specs.Prelude.{◌≡◌, cond, ltb, min};
ghost use Rattle.maps.specs.Neighbours.{marks_of};
ghost use Rattle.cut.specs.Cut.{cut_for, used, sides_of, no_sides};
ghost use Rattle.cut.specs.Kind.{kind_number, NamedKind};

use super::sides_of;
use basics::marks::Sides;
use maps::neighbours::Marks;
use refusals::Refusal;

#[derive(Clone, Copy, Debug, PartialEq, Eq)]
pub enum Kind {
    Luma4x4 = 0,
    Luma8x8,
    Luma16x16,
}

impl TryFrom<u8> for Kind {
    type Error = Refusal;

    ghost try_from_gives = { NamedKind };

    fn try_from(number: u8) -> Result<Kind, Refusal> {
        match number {
            0 => Ok(Kind::Luma4x4),
            1 => Ok(Kind::Luma8x8),
            2 => Ok(Kind::Luma16x16),
            _ => Err(Refusal::Unknown),
        }
    }
}

impl Kind {
    // The kind that a number counts as: any above 2 counts as 2.
    #[tactic(auto, using(crate::proofs::ByKind::used_past, crate::proofs::ByKind::cut_past))]
    pub fn of(number: u8) -> Kind
        ensures same_used { used (kind_number result) ≡ used number }
        ensures same_cut { cut_for (kind_number result) ≡ cut_for number }
        ensures lesser { kind_number result ≡ min number 2 }
    {
        Kind::try_from(number).unwrap_or(Kind::Luma16x16)
    }

    // How many luma modes it uses: one for each of its blocks.
    pub fn used_modes(self) -> usize
        ensures { result ≡ used (kind_number self) }
    {
        match self {
            Kind::Luma4x4 => 16,
            Kind::Luma8x8 => 4,
            Kind::Luma16x16 => 1,
        }
    }

    // How many blocks of its luma are in a row.
    pub fn across(self) -> usize
        ensures { result ≡ (cut_for (kind_number self)).across }
    {
        match self {
            Kind::Luma4x4 => 4,
            Kind::Luma8x8 => 2,
            Kind::Luma16x16 => 1,
        }
    }

    // The sides of luma block k that are there, from the marks of the neighbour macroblocks; none where there is no such block.
    pub fn sides_at(self, k: usize, marks: Marks) -> Sides
        ensures { result ≡ cond (ltb k (used (kind_number self))) (sides_of (cut_for (kind_number self)).across (marks_of marks) k) no_sides }
    {
        if k < self.used_modes() {
            return sides_of(k, self.across(), marks);
        }
        Sides::default()
    }
}
