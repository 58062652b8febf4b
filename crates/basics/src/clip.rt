// Clip1 of 8-bit samples (clause 5.7).
ghost use Rattle.std.specs.Prelude.{◌≡◌};
ghost use Rattle.basics.specs.Clip.{Clip1};

// `v` brought into 0..255, by the greater and the lesser of two numbers: several at once are then computed side by side.
#[tactic(auto, using(std::proofs::lemmas::Int::ints, std::proofs::lemmas::Int::clamps), unfolding(crate::specs::Clip::Clip1))]
pub fn clip_u8(v: i32) -> u8
    ensures { result ≡ Clip1 v }
{
    v.max(0).min(255) as u8
}
