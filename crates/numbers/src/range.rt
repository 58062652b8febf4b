// The numbers that may be given: coefficients, residuals and predictions in -32768..32767.
ghost use Rattle.std.specs.Prelude.{◌≡◌, true, [], ◌∷◌, eqb, length, IfOk};
ghost use Rattle.laws.specs.Answer.{◌unless◌, answer, written};
ghost use Rattle.numbers.specs.Numbers.{in_range, all_in_range};
ghost use Rattle.refusals.specs.Refusal.{number_of};

use super::reach::with_list;
use refusals::Refusal;

// Whether every number of `s` lies in that range.
pub fn all_in_range(s: &[i32]) -> bool
    ensures { result ≡ all_in_range s.now }
{
    with_list(0, s) < 32768
}

// The numbers of a list as residuals, which have sixteen bits.
pub fn narrow_all(list: &[i32], out: &mut [i16]) -> Result<(), Refusal>
    ensures value { number_of result ≡ answer (2 unless eqb (length list.now) (length out.old) ∷ 8 unless all_in_range list.now ∷ []) }
    ensures out_after { out.new ≡ written (number_of result) out.old list.now }
{
    if list.len() != out.len() {
        return Err(Refusal::Room);
    }
    if !all_in_range(list) {
        return Err(Refusal::Range);
    }
    narrow_list(list, out);
    Ok(())
}

// The same of a list that passes.
fn narrow_list(list: &[i32], out: &mut [i16])
    requires { (length list.now ≡ length out.old) × (all_in_range list.now ≡ true) }
    ensures { out.new ≡ list.now }
{
    // by its number: of what a zip over `iter_mut` writes only the length would be known
    for (k, v) in list.iter().enumerate() {
        out[k] = *v as i16;
    }
}

// Residuals as wider numbers.
pub fn widen_all(list: &[i16], out: &mut [i32]) -> Result<(), Refusal>
    ensures value { number_of result ≡ answer (2 unless eqb (length list.now) (length out.old) ∷ []) }
    ensures out_after { out.new ≡ written (number_of result) out.old list.now }
{
    if list.len() != out.len() {
        return Err(Refusal::Room);
    }
    // by its number, as above
    for (k, v) in list.iter().enumerate() {
        out[k] = i32::from(*v);
    }
    Ok(())
}

// A number as a residual.
pub fn narrow(v: i32) -> Result<i16, Refusal>
    ensures value { number_of result ≡ answer (8 unless in_range v ∷ []) }
    ensures residual { IfOk result (λ r. r ≡ v) }
{
    match i16::try_from(v) {
        Ok(residual) => Ok(residual),
        Err(_) => Err(Refusal::Range),
    }
}
