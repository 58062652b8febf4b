// The last step of a transform: ( h + 32 ) >> 6.
ghost use Rattle.std.specs.Prelude.{◌≡◌, length};
ghost use Rattle.laws.specs.Range.{Within, AllWithin, at};
ghost use Rattle.laws.specs.Table.{table};
ghost use Rattle.residual.specs.Inverse.{rounded};

// A number of the second pass of either transform, rounded to a residual.
pub(crate) fn round(h: i32) -> i16
    requires { Within 1782272 h }
    ensures { result ≡ rounded h }
{
    ((h + 32) >> 6) as i16
}

// The same of a list.
pub(crate) fn round_all(h: &[i32], out: &mut [i16])
    requires { (length h.now ≡ length out.old) × AllWithin 524288 h.now }
    ensures { out.new ≡ table (length h.now) (λ k. rounded (at h.now k)) }
{
    for (k, v) in h.iter().enumerate() {
        out[k] = round(*v);
    }
}
