// Whether the ring lies in the memory.
ghost use Rattle.std.specs.Prelude.{◌≡◌};
ghost use Rattle.moves.specs.Ready.{fits};

use rules::Ring;

#[tactic(auto, unfolding(crate::specs::Ready::fits, rules::specs::Bits::all))]
pub(crate) fn fits(r: Ring, d: u32, len: usize) -> bool
    ensures { result ≡ fits r d len }
{
    (r.first < d) & (r.count <= d) & (d as usize <= len) & (d <= 262144)
}
