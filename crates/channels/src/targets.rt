// The channels that a clock serves, and how many they are.
ghost use Rattle.std.specs.Prelude.{◌≤◌, ◌<◌, ◌^◌, ◌≡◌, [], length, MatchOption};
ghost use Rattle.rules.specs.Bits.{active_from, head_or};
ghost use Rattle.rules.specs.Clocks.{next_channel, targets, cursor_after};
ghost use Rattle.channels.specs.Serving.{served_by};

use rules::Core;

// The lowest active channel from k up. 02: "count trailing zeros on the mask from the cursor up"; why that finds it is said in
// laws/specs/Search.antt (`Cursor-zeros`). Where no bit is left the zeros are 32.
pub(crate) fn lowest_from(mask: u32, k: u32) -> Option<u32>
    requires { k ≤ 20 }
    ensures { MatchOption result (active_from k mask ≡ []) (λ at. (at ≡ head_or 20 (active_from k mask)) × (at < 20)) }
{
    let at = k + (mask >> k).trailing_zeros();
    let fitted = at < 20;
    if fitted { Some(at) } else { None }
}

// 01: "to the lowest active channel at or above the cursor, else to the lowest active one". The cursor's bound stands in each clause, and is
// no type's: a record may have any cursor, and `serve` takes every record.
pub(crate) fn next_channel(c: Core) -> u32
    requires { c.outputs.cursor ≤ 20 }
    ensures { (result ≡ next_channel c) × (result < 20) }
{
    match lowest_from(c.outputs.mask, c.outputs.cursor) {
        Some(above) => above,
        None => lowest_from(c.outputs.mask, 0).unwrap_or(0),
    }
}

// The channels that a clock serves, as a mask: every active one, or the next.
pub(crate) fn served(c: Core) -> u32
    requires { c.outputs.cursor ≤ 20 }
    ensures { result ≡ served_by c }
{
    if c.control.simultaneous {
        c.outputs.mask
    } else {
        1 << next_channel(c)
    }
}

// 01: "the cursor becomes that channel + 1"; "the cursor stays 0"
#[tactic(auto, unfolding(rules::specs::Clocks::cursor_after))]
pub(crate) fn cursor_after(c: Core) -> u32
    requires { c.outputs.cursor ≤ 20 }
    ensures { result ≡ cursor_after c }
{
    if c.control.simultaneous {
        c.outputs.cursor
    } else {
        next_channel(c) + 1
    }
}

// How many values a clock moves if it moves any: "as many values as the mask has ones", or one.
pub(crate) fn group_size(c: Core) -> u32
    requires { c.outputs.mask < 2 ^ 20 }
    ensures { result ≡ length (targets c) }
{
    if c.control.simultaneous {
        c.outputs.mask.count_ones()
    } else {
        1
    }
}
