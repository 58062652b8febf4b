// The residuals of a macroblock, before any of its blocks is rebuilt (clauses 8.5.1 to 8.5.4).
ghost use Rattle.std.specs.Prelude.{◌≡◌, ◌&&◌, IfOk, [], ◌∷◌, ◌*◌, length};
ghost use Rattle.laws.specs.Answer.{◌unless◌, answer};
ghost use Rattle.laws.specs.Table.{blockwise, all_blocks};
ghost use Rattle.residual.specs.Quads.{coded_quads};
ghost use Rattle.refusals.specs.Refusal.{number_of};
ghost use Rattle.cut.specs.Kind.{kind_number};
ghost use Rattle.macroblock.specs.Rules.{luma_in_range, chroma_in_range};
ghost use Rattle.macroblock.specs.inner.Blocks.{Transformed, Coded, first_for};

use cut::kind::Kind;
use refusals::Refusal;
use residual::blocks::{Transform, inverse_blocks};
use residual::inverse::Blocks4x4;
use transform_8x8::inverse::Blocks8x8;

// The residuals of a record's numbers, and which of their quads have a coefficient, if each block is in range: luma that is cut in 8x8 blocks has 64
// coefficients to each, all else sixteen.
pub(crate) fn residuals_of(
    kind: Kind,
    numbers: &[i32],
    out: &mut [i16],
    coded: &mut [u8],
) -> Result<(), Refusal>
    requires { (length numbers.now ≡ 384) × (length out.old ≡ 384) × (length coded.old ≡ 6) }
    ensures value { number_of result ≡ answer (8 unless (luma_in_range (kind_number kind) numbers.now && chroma_in_range numbers.now) ∷ []) }
    ensures transformed { IfOk result (λ _. Transformed (first_for (kind_number kind)) numbers.now out.new) }
    ensures coded { IfOk result (λ _. Coded out.new coded.new) }
{
    match kind {
        Kind::Luma8x8 => {
            invert::<Blocks8x8>(&numbers[..256], &mut out[..256], &mut coded[..4])?;
            invert::<Blocks4x4>(&numbers[256..], &mut out[256..], &mut coded[4..])
        }
        Kind::Luma4x4 | Kind::Luma16x16 => invert::<Blocks4x4>(numbers, out, coded),
    }
}

// Those of a list whose blocks are all of one size.
fn invert<T: Transform>(numbers: &[i32], out: &mut [i16], coded: &mut [u8]) -> Result<(), Refusal>
    requires { (length numbers.now ≡ length out.old) × (length numbers.now ≡ 64 * length coded.old) }
    ensures value { number_of result ≡ answer (8 unless all_blocks T.size T.in_range numbers.now ∷ []) }
    ensures residuals { IfOk result (λ _. out.new ≡ blockwise T.size T.inverse numbers.now) }
    ensures marks { coded.new ≡ coded_quads numbers.now }
{
    if inverse_blocks::<T>(numbers, out, coded)? {
        Ok(())
    } else {
        Err(Refusal::Range)
    }
}
