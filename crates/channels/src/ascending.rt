// The channels of a mask, one after the other.
ghost use Rattle.std.specs.Prelude.{◌≡◌};
ghost use Rattle.std.specs.Iterator.{YieldsFirst, item_count};
ghost use Rattle.rules.specs.Bits.{active_from};

use std::marker::Model;

// The channels of a mask that are still to come, the lowest first, seen as their list. `x & (x - 1)` is x without its lowest one, and its
// zeros say which that was (`Group-zeros` in laws/specs/Search.antt).
#[derive(Drop)]
pub struct ActiveChannels {
    waiting: u32,
}

impl Model for ActiveChannels {
    ghost use Rattle.std.specs.Prelude.{ℕ, List, ◌<◌, ◌^◌};
    ghost use Rattle.rules.specs.Bits.{active_from};

    ghost Value = { List ℕ };

    ghost view = { λ it. active_from 0 it.waiting };

    ghost invariant = { λ it. it.waiting < 2 ^ 20 };
}

impl ActiveChannels {
    // Those of a mask: its bits 0 to 19; a bit above these is no channel's.
    pub fn of(mask: u32) -> Self
        ensures { result ≡ active_from 0 mask }
    {
        ActiveChannels {
            waiting: mask % 1048576,
        }
    }
}

impl Iterator for ActiveChannels {
    type Item = usize;

    ghost next_gives = { YieldsFirst (λ rest. rest) };

    ghost remaining = { item_count (λ rest. rest) };

    fn next(&mut self) -> Option<usize> {
        let none = self.waiting == 0;
        if none {
            return None;
        }
        let k = self.waiting.trailing_zeros();
        self.waiting &= self.waiting - 1;
        Some(k as usize)
    }
}
