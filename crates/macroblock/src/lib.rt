// One macroblock in its three planes, from a record and the marks of its four neighbours (clauses 8.3 and 8.5).
#![tactic(auto)]

ghost use Rattle.std.specs.Prelude.{◌≡◌, true, [], ◌∷◌, length};
ghost use Rattle.laws.specs.Answer.{answer, written};
ghost use Rattle.maps.specs.Neighbours.{marks_of};
ghost use Rattle.refusals.specs.Refusal.{number_of};
ghost use Rattle.cut.specs.Kind.{kind_number};
ghost use Rattle.macroblock.specs.Kinds.{SameLent, record_in, luma_square, cb_square, cr_square};
ghost use Rattle.macroblock.specs.Rules.{rooms, early_rules, numbers_rule, rebuild_answer};

use cut::kind::Kind;
use maps::neighbours::Marks;
use place::Spot;
use put::Residuals;
use refusals::Refusal;
use residuals::residuals_of;
use rules::{accept, has_rooms};
use squares::all_squares;

mod beside; // the samples beside a block
mod place; // 6.4.3: where blocks stand in their planes
mod squares; // the square of each plane, block by block
mod predict; // 8.3: predictions
mod put; // 8.5.14: sums
mod residuals; // 8.5.1 to 8.5.4: residuals, and refusal 8
mod rules; // refusals 2, 6 and 7

// A macroblock: its kind, 0 for 4x4, 1 for 8x8 and 2 for 16x16, its luma modes, its chroma mode, and 256 numbers for luma, 64 for Cb and 64 for Cr. Kind and
// modes are numbers, since C hands any byte and an unknown one is refused in its turn; 1.5 kilobytes are not copied unseen.
#[derive(Drop)]
pub struct Record {
    pub kind: u8,
    pub modes: [u8; 16],
    pub chroma_mode: u8,
    pub numbers: [i32; 384],
}

// How far apart the rows of each plane stand.
#[derive(Clone, Copy)]
pub struct Strides {
    pub luma: usize,
    pub cb: usize,
    pub cr: usize,
}

// A record that is lent, part by part.
#[derive(Clone, Copy)]
pub struct RecordRef<'a> {
    pub kind: u8,
    pub modes: &'a [u8],
    pub chroma_mode: u8,
    pub numbers: &'a [i32],
}

// The three planes of a picture, lent to be written.
#[derive(Drop)]
pub struct Planes<'a> {
    pub luma: &'a mut [u8],
    pub cb: &'a mut [u8],
    pub cr: &'a mut [u8],
    pub strides: Strides,
}

// The same, lent to be read.
#[derive(Clone, Copy)]
pub struct PlanesRef<'a> {
    pub luma: &'a [u8],
    pub cb: &'a [u8],
    pub cr: &'a [u8],
    pub strides: Strides,
}

impl Planes<'_> {
    // The same planes, to be read.
    pub fn shown(&self) -> PlanesRef<'_>
        ensures { (result.luma.now ≡ self.now.luma.now) × (result.cb.now ≡ self.now.cb.now) × (result.cr.now ≡ self.now.cr.now)
            × (result.strides ≡ self.now.strides) }
    {
        PlanesRef {
            luma: self.luma,
            cb: self.cb,
            cr: self.cr,
            strides: self.strides,
        }
    }
}

// Rebuilds macroblock (x, y) of three planes from a record, where its neighbours have these marks, if those that it waits for are done, as `ready` says.
pub fn rebuild(
    x: u32,
    y: u32,
    planes: &mut Planes,
    marks: Marks,
    ready: bool,
    rec: RecordRef,
) -> Result<(), Refusal>
    ensures value { number_of result ≡ rebuild_answer
        (rooms x y (length planes.old.luma.now) (length planes.old.cb.now) (length planes.old.cr.now) planes.old.strides (marks_of marks))
        (marks_of marks) ready (record_in rec.entry) }
    ensures lent { SameLent planes.old planes.new }
    ensures luma_after { planes.new.luma.now ≡ written (number_of result) planes.old.luma.now
        (luma_square x y (marks_of marks) (record_in rec.entry) planes.old.strides.luma planes.old.luma.now) }
    ensures cb_after { planes.new.cb.now ≡ written (number_of result) planes.old.cb.now
        (cb_square x y (marks_of marks) (record_in rec.entry) planes.old.strides.cb planes.old.cb.now) }
    ensures cr_after { planes.new.cr.now ≡ written (number_of result) planes.old.cr.now
        (cr_square x y (marks_of marks) (record_in rec.entry) planes.old.strides.cr planes.old.cr.now) }
{
    let spot = Spot {
        x: x as usize,
        y: y as usize,
        strides: planes.strides,
        marks,
    };
    if !has_rooms(spot, planes.luma.len(), planes.cb.len(), planes.cr.len()) {
        return Err(Refusal::Room);
    }
    let kind = accept(marks, rec)?;
    if !ready {
        return Err(Refusal::NotReady);
    }
    decode(spot, planes, kind, rec)
}

// The macroblock of a record that is not refused before its numbers are read: all its residuals are made before anything is written.
fn decode(spot: Spot, planes: &mut Planes, kind: Kind, rec: RecordRef) -> Result<(), Refusal>
    requires kind_value { kind_number kind ≡ rec.kind }
    requires rooms_value { rooms spot.x spot.y (length planes.old.luma.now) (length planes.old.cb.now) (length planes.old.cr.now) spot.strides
        (marks_of spot.marks) ≡ true }
    requires record_value { answer (early_rules (marks_of spot.marks) (record_in rec)) ≡ 0 }
    ensures value { number_of result ≡ answer (numbers_rule (record_in rec.entry) ∷ []) }
    ensures lent { SameLent planes.old planes.new }
    ensures luma_after { planes.new.luma.now ≡ written (number_of result) planes.old.luma.now
        (luma_square spot.x spot.y (marks_of spot.marks) (record_in rec.entry) spot.strides.luma planes.old.luma.now) }
    ensures cb_after { planes.new.cb.now ≡ written (number_of result) planes.old.cb.now
        (cb_square spot.x spot.y (marks_of spot.marks) (record_in rec.entry) spot.strides.cb planes.old.cb.now) }
    ensures cr_after { planes.new.cr.now ≡ written (number_of result) planes.old.cr.now
        (cr_square spot.x spot.y (marks_of spot.marks) (record_in rec.entry) spot.strides.cr planes.old.cr.now) }
{
    let mut list = [0i16; 384];
    let mut coded = [0u8; 6];
    residuals_of(kind, rec.numbers, &mut list, &mut coded)?;
    let residuals = Residuals {
        list: &list,
        coded: &coded,
    };
    all_squares(spot, planes, kind, rec, residuals);
    Ok(())
}
