// The volts of a level, exactly.
ghost use Rattle.std.specs.Prelude.{◌<◌, ◌≡◌};
ghost use Rattle.volt_rules.specs.Volts.{factor, share, volts_of};

// 02: "5, 10 or 20 for range 0, 1, 2". The range is a number as in the board's record, which may be damaged.
#[tactic(auto, unfolding(volt_rules::specs::Volts::factor))]
fn factor_of(range: u32) -> u32
    ensures { result ≡ factor range }
{
    match range {
        0 => 5,
        1 => 10,
        _ => 20,
    }
}

// n / 65,536: the cast is exact, and so is a division by a power of two.
fn share_of(n: u32) -> f32
    requires { n < 16777216 }
    ensures { result ≡ share n }
{
    n as f32 / 65536.0
}

// Only what lies below 32,768 is negated: so zero is positive.
pub(crate) fn volts_of(range: u32, level: u16) -> f32
    ensures { result ≡ volts_of range level }
{
    let k = factor_of(range);
    let n = u32::from(level);
    let negative = n < 32768;
    if negative {
        return -share_of((32768 - n) * k);
    }
    share_of((n - 32768) * k)
}
