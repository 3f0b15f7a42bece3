// The manual's D00 to D31 of a value.
#![tactic(auto)]

ghost use Rattle.rules.specs.Bits.{bit};
ghost use Rattle.rules.specs.Told.{Told};

// Whether Dk of a value is set; above D31 there is none that is. It is compiled into its callers, where k is a number.
#[inline]
pub fn bit(v: u32, k: u32) -> bool
    ensures { Told (bit k v) result }
{
    let within = k < 32;
    within && (v >> k) % 2 == 1
}
