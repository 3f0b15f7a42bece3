// A session as it runs, with the table of the levels that counted so far. The channels are changed where they lie: by value each event
// copied their 240 bytes by calls of `memcpy`, and a session of power-ups took twice the time.
ghost use Rattle.std.specs.Prelude.{◌≡◌, ◌&&◌, eqb, false};
ghost use Rattle.rules.specs.Numbered.{answer_of};
ghost use Rattle.rules.specs.Record.{unpowered};
ghost use Rattle.volt_rules.specs.Counting.{is_power_up};
ghost use Rattle.volts.specs.Numbered.{table_of};
ghost use Rattle.volts.specs.Observing.{Observes, with_channels};
ghost use Rattle.volts.specs.Promises.{Tabled};
ghost use Rattle.volts.specs.Watching.{held, AllStarted, AllEntered, Watched};

use crate::channel::{at_once, entered};
use crate::levels::volts_of;
use crate::refusal::VoltRefusal;
use board::step;
use record::unpowered;
use rules::{Board, Done, Event, Refusal};
use run::{Cursor, next};
use volt_rules::Extremes;

// The board after an event, and the three numbers of each channel, which count from the first accepted power-up on.
#[derive(Clone, Copy)]
pub(crate) struct Observed {
    board: Board,
    counts: bool,
    pub(crate) channels: [Extremes; 20],
}

impl Observed {
    // Before the first event. What the channels hold does not count yet, and is no zero: with the zeros of the board LLVM would clear it by
    // a call of `memset`, which the archive takes from outside.
    pub(crate) fn new() -> Observed
        ensures off { result.board ≡ unpowered }
        ensures empty { result.counts ≡ false }
    {
        Observed {
            board: unpowered(),
            counts: false,
            channels: [at_once(f32::NAN); 20],
        }
    }

    // All events of a session file, from a new one on: then the channels are its table, or the answer is why there is none.
    pub(crate) fn observe_all(&mut self, s: &[u8], memory: &mut [u32]) -> Result<(), VoltRefusal>
        requires off { self.old.board ≡ unpowered }
        requires empty { self.old.counts ≡ false }
        ensures { Tabled s.now memory.old (table_of (with_channels result self.new.channels)) memory.new }
    {
        // By `next`, tried over `Events`: 6 in 100 slower.
        let mut c = Cursor { place: 0 };
        while let Some((e, after)) = next(s, c)? {
            self.observe(memory, e);
            c = after;
        }
        if self.counts {
            Ok(())
        } else {
            Err(VoltRefusal::NoPowerUp)
        }
    }

    // One event on the board and its sample memory: the levels that it leaves are entered in the table.
    fn observe(&mut self, memory: &mut [u32], e: Event)
        ensures { Observes self.old memory.old e self.new memory.new }
    {
        let r = step(self.board, memory, e);
        self.board = r.board;
        self.watch(starts_afresh(e, r.answer));
    }

    // 02: "Levels right after an accepted power-up and after each later event count": the board is the record after an event. Before the
    // first accepted power-up nothing counts.
    fn watch(&mut self, fresh: bool)
        ensures same_board { self.new.board ≡ self.old.board }
        ensures watched { Watched fresh self.old.board (held self.old) (held self.new) }
    {
        let range = self.board.core.options.range;
        let levels = &self.board.core.outputs.levels;
        if fresh {
            start_all(&mut self.channels, range, levels);
            self.counts = true;
            return;
        }
        if self.counts {
            enter_all(&mut self.channels, range, levels);
        }
    }
}

// An accepted power-up; initialise is none.
#[tactic(auto, unfolding(volt_rules::specs::Counting::is_power_up))]
fn starts_afresh(e: Event, answer: Result<Done, Refusal>) -> bool
    ensures { result ≡ is_power_up e && eqb (answer_of answer).refusal 0 }
{
    let accepted = answer.is_ok();
    matches!(e, Event::PowerUp(_)) && accepted
}

// The twenty channels, one after another. By the place, here and below: there are two arrays, and the kit's guide says that of what is
// written behind a `zip` nothing is known.
fn start_all(channels: &mut [Extremes; 20], range: u32, levels: &[u16; 20])
    ensures { AllStarted range levels.now channels.new }
{
    for (k, x) in channels.iter_mut().enumerate() {
        *x = at_once(volts_of(range, levels[k]));
    }
}

fn enter_all(channels: &mut [Extremes; 20], range: u32, levels: &[u16; 20])
    ensures { AllEntered channels.old range levels.now channels.new }
{
    for (k, x) in channels.iter_mut().enumerate() {
        *x = entered(*x, volts_of(range, levels[k]));
    }
}
