// The order of a cut, and what is wrong with it, before anything is written.
ghost use Rattle.std.specs.Prelude.{◌≤◌, ◌≡◌};
ghost use Rattle.cut_rules.specs.Cut.{is_grouped, is_choice, cut_refusal};
ghost use Rattle.writer.specs.Cutting.{values_of, groups_of};
ghost use Rattle.writer.specs.Orders.{order_of, GoodOrder};
ghost use Rattle.writer.specs.Written.{outcome_number};

use crate::refusal::WriteRefusal;
use crate::room::check_room;

// 02: "Given a recording as a lent slice of 16-bit numbers, group after group, with the number of channels in a group, cut groups a to b
// (from 0, both taken) and a chosen subset of channels". Bit k of the mask is channel k of a group.
#[derive(Clone, Copy)]
pub struct Order<'a> {
    pub recording: &'a [u16],
    pub channels: u32,
    pub first: usize,
    pub last: usize,
    pub mask: u32,
}

impl Order<'_> {
    // 02: "channels in a group .. 1 to 20", and the length a whole number of groups.
    #[tactic(auto, unfolding(cut_rules::specs::Cut::is_grouped, rules::specs::Bits::all))]
    fn is_grouped(&self) -> bool
        ensures { result ≡ is_grouped (order_of self.now) }
    {
        self.channels != 0
            && self.channels <= 20
            && self.recording.len() % self.channels as usize == 0
    }

    // 02: "empty choice, a channel outside the group, or groups out of range or reversed": none of these.
    #[tactic(auto, unfolding(cut_rules::specs::Cut::is_choice, rules::specs::Bits::all))]
    fn is_choice(&self) -> bool
        requires { (1 ≤ self.now.channels) × (self.now.channels ≤ 20) }
        ensures { result ≡ is_choice (order_of self.now) }
    {
        self.mask != 0
            && self.mask < 1 << self.channels
            && self.first <= self.last
            && self.last < self.recording.len() / self.channels as usize
    }

    // How many numbers are chosen: so many groups, "both taken", with so many channels.
    pub(crate) fn values(&self) -> usize
        requires { GoodOrder (order_of self.now) }
        ensures { result ≡ values_of self.now.first self.now.last self.now.mask }
    {
        (self.last - self.first + 1) * self.mask.count_ones() as usize
    }

    // The numbers of the chosen groups.
    pub(crate) fn groups(&self) -> &[u16]
        requires { GoodOrder (order_of self.now) }
        ensures { result.now ≡ groups_of (order_of self.now) }
    {
        let channels = self.channels as usize;
        &self.recording[self.first * channels..(self.last + 1) * channels]
    }

    // 02: "Refusals, in order: 22 channels in a group not 1 to 20, or length no whole number of groups; 23 empty choice, a channel outside
    // the group, or groups out of range or reversed; then 20 and 21". The records of the mask and of each value have eight bytes.
    pub(crate) fn check(&self, length: usize, place: usize) -> Result<(), WriteRefusal>
        ensures { outcome_number result ≡ cut_refusal (order_of self.now) length place }
    {
        if !self.is_grouped() {
            return Err(WriteRefusal::PartOfAGroup);
        }
        if !self.is_choice() {
            return Err(WriteRefusal::NoChoice);
        }
        check_room(length, place, 1 + 8 * (1 + self.values() as u128))
    }
}
