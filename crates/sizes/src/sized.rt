// An event with a size code in it.
ghost use Rattle.std.specs.Prelude.{◌<◌, ◌≡◌};
ghost use Rattle.size_rules.specs.Coded.{sized};

use rules::Event;

// 02: "one size code put into every buffer operations write": D3..0 of each write to 0Ch
#[tactic(auto, unfolding(size_rules::specs::Coded::sized))]
pub(crate) fn sized(code: u32, e: Event) -> Event
    requires { code < 16 }
    ensures { result ≡ sized code e }
{
    match e {
        Event::Write {
            offset: 0x0C,
            value,
        } => Event::Write {
            offset: 0x0C,
            value: value / 16 * 16 + code,
        },
        _ => e,
    }
}
