// The table of volts for hosts in Rust and C. A slice is a pointer and then a length on their side, and the sixty numbers a pointer
// (hosts/).
ghost use Rattle.std.specs.Prelude.{◌≡◌};
ghost use Rattle.volts.specs.Promises.{numbers_of, VoltsCalled};

use crate::running::Observed;
use volt_rules::Extremes;

// Three numbers a channel, channel after channel. Each three by itself: an array of all would be copied as a whole.
fn put(channels: &[Extremes; 20], numbers: &mut [f32; 60])
    ensures { numbers.new ≡ numbers_of channels.now }
{
    for (k, x) in channels.iter().enumerate() {
        numbers[3 * k..3 * k + 3].copy_from_slice(&[x.lowest, x.highest, x.last]);
    }
}

// The table of a session file, run over the sample memory: lowest, highest and last volts of channel 0, then of channel 1, and so on.
// Answers the refusal number, 0 where there is none; refused, the sixty numbers are zero.
pub fn nergutsai_volts(file: &[u8], memory: &mut [u32], numbers: &mut [f32; 60]) -> u32
    ensures { VoltsCalled file.now memory.old result memory.new numbers.new }
{
    let mut seen = Observed::new();
    match seen.observe_all(file, memory) {
        Ok(()) => {
            put(&seen.channels, numbers);
            0
        }
        Err(why) => {
            *numbers = [0.0; 60];
            u32::from(why)
        }
    }
}
