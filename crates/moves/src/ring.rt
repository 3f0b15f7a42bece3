// Where the stored values stand in the sample memory, and how one leaves.
ghost use Rattle.std.specs.Prelude.{◌+◌, ◌%◌, ◌<◌, ◌≤◌, ◌≡◌, get_or};
ghost use Rattle.rules.specs.Record.{value_span};
ghost use Rattle.moves.specs.Ready.{Ready};
ghost use Rattle.moves.specs.Does.{ring_place};
ghost use Rattle.moves.specs.Deal.{place_passed};

use rules::Ring;

// x mod depth, for an x of less than two laps: a division would take longer than the rest of a value's way.
pub(crate) fn wrapped(x: u32, d: u32) -> u32
    requires { x < d + d }
    ensures { (result ≡ x % d) × (result < d) }
{
    if x < d { x } else { x - d }
}

// The place after one: x mod depth for an x of at most one lap, in fewer steps than `wrapped`, since the next value waits for it.
pub(crate) fn stepped(x: u32, d: u32) -> u32
    requires { (0 < x) × (x ≤ d) }
    ensures { (result ≡ x % d) × (result < d) }
{
    if x == d { 0 } else { x }
}

// The value that left the front of the ring, and the ring after it.
#[derive(Clone, Copy)]
pub(crate) struct Departed {
    pub value: u32,
    pub ring: Ring,
}

// 01: "A leaving value moves first on by one, mod depth." "A recirculated value leaves and is then stored."
pub(crate) fn pass(ring: Ring, again: bool, d: u32, memory: &mut [u32]) -> Departed
    requires { Ready d ring memory.old × (0 < ring.count) }
    ensures { (result.value ≡ get_or memory.old ring.first 0 % value_span) × (result.ring ≡ (place_passed again d (ring_place ring memory.old)).ring) × (memory.new ≡ (place_passed again d (ring_place ring memory.old)).memory) }
{
    let value = memory[ring.first as usize] % 131072;
    let first = stepped(ring.first + 1, d);
    let rest = ring.count - 1;
    let count = if again {
        memory[wrapped(first + rest, d) as usize] = value;
        rest + 1
    } else {
        rest
    };
    Departed {
        value,
        ring: Ring { first, count },
    }
}
