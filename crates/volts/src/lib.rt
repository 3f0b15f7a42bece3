// Lowest, highest and last volts of each channel over a session (02, 2026-03). The loop has to see the event, since an accepted power-up
// starts the table afresh and initialise, which can leave the same record, does not: so it goes by `run::next` and `board::step`.
#![tactic(auto)]

ghost use Rattle.volts.specs.Numbered.{table_of};
ghost use Rattle.volts.specs.Promises.{Tabled};

use crate::running::Observed;
use volt_rules::Extremes;

mod channel;
mod exported;
mod levels;
mod refusal;
mod running;

pub use exported::nergutsai_volts;
pub use refusal::VoltRefusal;

// The table of a session file, run over the lent sample memory, which is left as the run leaves it. A file of any length is taken.
pub fn volts(s: &[u8], memory: &mut [u32]) -> Result<[Extremes; 20], VoltRefusal>
    ensures { Tabled s.now memory.old (table_of result) memory.new }
{
    let mut seen = Observed::new();
    seen.observe_all(s, memory)?;
    Ok(seen.channels)
}
