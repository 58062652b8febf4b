// Numbers of coefficients: the context n_c (clause 9.2.1), and their order in a macroblock (clause 6.4.3).
ghost use Rattle.std.specs.Prelude.{◌≡◌, [], ◌∷◌, eqb, pos, length};
ghost use Rattle.laws.specs.Answer.{◌unless◌, answer, written};
ghost use Rattle.refusals.specs.Refusal.{number_of};
ghost use Rattle.basics.specs.Nnz.{n_c, in_raster};

use refusals::Refusal;

// The context of a block whose neighbours to the left and above have these numbers, where there are such blocks.
pub fn nc_from_neighbors(a: Option<u8>, b: Option<u8>) -> i32
    ensures { result ≡ pos (n_c a b) }
{
    match (a, b) {
        (Some(na), Some(nb)) => (i32::from(na) + i32::from(nb) + 1) >> 1,
        (Some(n), None) | (None, Some(n)) => i32::from(n),
        (None, None) => 0,
    }
}

// The numbers of a macroblock's 24 blocks, from scan order to raster order, put into lent memory.
pub fn nnz_raster_from_z(n: &[u8], out: &mut [u8]) -> Result<(), Refusal>
    ensures value { number_of result ≡ answer (2 unless eqb (length n.now) 24 ∷ 2 unless eqb (length out.old) 24 ∷ []) }
    ensures out_after { out.new ≡ written (number_of result) out.old (in_raster n.now) }
{
    if n.len() != 24 || out.len() != 24 {
        return Err(Refusal::Room);
    }
    out.copy_from_slice(&in_raster(n));
    Ok(())
}

// The same in an array: all are read before one is put, so that the compiler moves them at once.
#[tactic(auto, unfolding(crate::specs::Nnz::in_raster, laws::specs::Table::table))]
fn in_raster(n: &[u8]) -> [u8; 24]
    requires { length n.now ≡ 24 }
    ensures { result ≡ in_raster n.now }
{
    [
        n[0], n[1], n[4], n[5], n[2], n[3], n[6], n[7], n[8], n[9], n[12], n[13], n[10], n[11],
        n[14], n[15], n[16], n[17], n[20], n[21], n[18], n[19], n[22], n[23],
    ]
}
