// What a write latches as the size code, and an edge as the request.
ghost use Rattle.std.specs.Prelude.{◌≡◌};
ghost use Rattle.rules.specs.Size.{code_of};
ghost use Rattle.rules.specs.Interrupt.{edge};

use rules::Size;
use status::write_initialises;

// 01: "false to true sets the request after all else; true to false clears it"
#[tactic(auto, unfolding(rules::specs::Interrupt::edge))]
pub(crate) fn edge(before: bool, after: bool, q: bool) -> bool
    ensures { result ≡ edge before after q }
{
    if before { after & q } else { after | q }
}

#[tactic(auto, unfolding(rules::specs::Size::code_of, rules::specs::Size::initialises))]
pub(crate) fn code_of(s: Size, o: u32, v: u32) -> u32
    ensures { result ≡ code_of s o v }
{
    if o == 0x0C {
        v % 16
    } else if write_initialises(o, v) {
        15
    } else {
        s.code
    }
}
