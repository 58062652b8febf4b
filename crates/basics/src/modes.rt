// The prediction modes of clause 8.3 by name, in the order of their numbers, and whether the marks of a block permit one.
ghost use Rattle.std.specs.Prelude.{◌≡◌, IfOk};
ghost use Rattle.refusals.specs.Refusal.{number_of};
ghost use Rattle.basics.specs.Marks.{permitted_nxn, permitted16x16, permitted_chroma, mode_answer};
ghost use Rattle.basics.specs.Modes.{luma_mode, luma16x16_mode, chroma_mode, Named};

use super::marks::{Sides, permits_16x16, permits_chroma, permits_nxn};
use refusals::Refusal;

// 8.3.1.1 and 8.3.2.1: of 4x4 and 8x8 luma blocks.
#[derive(Clone, Copy, Debug, PartialEq, Eq)]
pub enum LumaMode {
    Vertical = 0,
    Horizontal,
    Dc,
    DiagonalDownLeft,
    DiagonalDownRight,
    VerticalRight,
    HorizontalDown,
    VerticalLeft,
    HorizontalUp,
}

// 8.3.3: of 16x16 luma blocks.
#[derive(Clone, Copy, Debug, PartialEq, Eq)]
pub enum Luma16x16Mode {
    Vertical = 0,
    Horizontal,
    Dc,
    Plane,
}

// 8.3.4: of 8x8 chroma blocks.
#[derive(Clone, Copy, Debug, PartialEq, Eq)]
pub enum ChromaMode {
    Dc = 0,
    Horizontal,
    Vertical,
    Plane,
}

impl TryFrom<u8> for LumaMode {
    type Error = Refusal;

    ghost try_from_gives = { Named luma_mode 8 };

    #[inline]
    fn try_from(number: u8) -> Result<LumaMode, Refusal> {
        match number {
            0 => Ok(LumaMode::Vertical),
            1 => Ok(LumaMode::Horizontal),
            2 => Ok(LumaMode::Dc),
            3 => Ok(LumaMode::DiagonalDownLeft),
            4 => Ok(LumaMode::DiagonalDownRight),
            5 => Ok(LumaMode::VerticalRight),
            6 => Ok(LumaMode::HorizontalDown),
            7 => Ok(LumaMode::VerticalLeft),
            8 => Ok(LumaMode::HorizontalUp),
            _ => Err(Refusal::Unknown),
        }
    }
}

impl TryFrom<u8> for Luma16x16Mode {
    type Error = Refusal;

    ghost try_from_gives = { Named luma16x16_mode 3 };

    #[inline]
    fn try_from(number: u8) -> Result<Luma16x16Mode, Refusal> {
        match number {
            0 => Ok(Luma16x16Mode::Vertical),
            1 => Ok(Luma16x16Mode::Horizontal),
            2 => Ok(Luma16x16Mode::Dc),
            3 => Ok(Luma16x16Mode::Plane),
            _ => Err(Refusal::Unknown),
        }
    }
}

impl TryFrom<u8> for ChromaMode {
    type Error = Refusal;

    ghost try_from_gives = { Named chroma_mode 3 };

    #[inline]
    fn try_from(number: u8) -> Result<ChromaMode, Refusal> {
        match number {
            0 => Ok(ChromaMode::Dc),
            1 => Ok(ChromaMode::Horizontal),
            2 => Ok(ChromaMode::Vertical),
            3 => Ok(ChromaMode::Plane),
            _ => Err(Refusal::Unknown),
        }
    }
}

// Of each kind, the mode of a number where the marks permit it. The three are two lines each: a trait for them would take the numbers, the rules and a law of
// each kind besides.
impl LumaMode {
    #[inline]
    pub fn permitted(number: u8, sides: Sides) -> Result<LumaMode, Refusal>
        ensures answer { number_of result ≡ mode_answer 8 (permitted_nxn sides.above sides.left sides.corner) number }
        ensures mode { IfOk result (λ m. luma_mode m ≡ number) }
    {
        let mode = LumaMode::try_from(number)?;
        permits_nxn(number, sides)
            .then_some(mode)
            .ok_or(Refusal::NotPermitted)
    }
}

impl Luma16x16Mode {
    #[inline]
    pub fn permitted(number: u8, sides: Sides) -> Result<Luma16x16Mode, Refusal>
        ensures answer { number_of result ≡ mode_answer 3 (permitted16x16 sides.above sides.left sides.corner) number }
        ensures mode { IfOk result (λ m. luma16x16_mode m ≡ number) }
    {
        let mode = Luma16x16Mode::try_from(number)?;
        permits_16x16(number, sides)
            .then_some(mode)
            .ok_or(Refusal::NotPermitted)
    }
}

impl ChromaMode {
    #[inline]
    pub fn permitted(number: u8, sides: Sides) -> Result<ChromaMode, Refusal>
        ensures answer { number_of result ≡ mode_answer 3 (permitted_chroma sides.above sides.left sides.corner) number }
        ensures mode { IfOk result (λ m. chroma_mode m ≡ number) }
    {
        let mode = ChromaMode::try_from(number)?;
        permits_chroma(number, sides)
            .then_some(mode)
            .ok_or(Refusal::NotPermitted)
    }
}
