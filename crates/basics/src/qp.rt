// Chroma quantisation parameters (clause 8.5.8, Table 8-15).
ghost use Rattle.std.specs.Prelude.{◌≡◌};
ghost use Rattle.basics.specs.Qp.{QPc};

#[derive(Clone, Copy, Debug, PartialEq, Eq)]
pub struct LumaQp(pub u8);

#[derive(Clone, Copy, Debug, PartialEq, Eq)]
pub struct ChromaQp(pub u8);

const QPC: [u8; 22] = [
    29, 30, 31, 32, 32, 33, 34, 34, 35, 35, 36, 36, 37, 37, 37, 38, 38, 38, 39, 39, 39, 39,
];

// The chroma QP of a luma QP, with an index offset of 0. A QP above 51 is taken as 51.
#[inline]
#[tactic(auto, unfolding(crate::specs::Qp::QPc, crate::specs::Qp::table815))]
pub fn chroma_qp(qp: LumaQp) -> ChromaQp
    ensures { result.0 ≡ QPc qp.0 }
{
    let q = qp.0;
    if q < 30 {
        return ChromaQp(q);
    }
    let i = usize::from((q - 30).min(21));
    ChromaQp(QPC[i])
}
