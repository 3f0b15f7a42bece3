// The commonest events of a session, a load that is stored and a tick that is accepted, as the few parts of the board that they
// change: the loop over a session then need not hand the whole record to `step` and back.
ghost use Rattle.std.specs.Prelude.{◌≡◌, true};
ghost use Rattle.rules.specs.Told.{Told};
ghost use Rattle.run.specs.Ahead.{ahead_of};
ghost use Rattle.record.specs.Capped.{capped_board};
ghost use Rattle.board.specs.Promises.{Stepped};
ghost use Rattle.listing.specs.Shortcuts.{common_event, common_of, takes, ticks, quick, board_with, reply_of, InRun};
ghost use Rattle.rules.specs.Record.{depth, state_of};

use channels::serve;
use moves::{Frame, deal, load};
use rules::{Board, Core, Event, Fate, Signal};
use run::{Ahead, Cursor};
use status::{closed, is_full, tick_accepted};

// A load, that is a write of the value to 18h, or a tick.
#[derive(Clone, Copy)]
pub(crate) enum Common {
    Load(u32),
    Tick,
}

// Which of them stands ahead, if it is one, and the cursor after it.
pub(crate) fn common_of(ahead: Ahead) -> Option<(Common, Cursor)>
    ensures { result ≡ common_of (ahead_of ahead) }
{
    match ahead {
        Ok(
            Some(
                (
                    Event::Write {
                        offset: 0x18,
                        value,
                    },
                    after,
                ),
            ),
        ) => Some((Common::Load(value), after)),
        Ok(Some((Event::Signal(Signal::Tick), after))) => Some((Common::Tick, after)),
        _ => None,
    }
}

// What an event that was done at once changed beside the levels, and what it answers.
#[derive(Clone, Copy)]
pub(crate) struct Change {
    pub moved: u32,
    pub fate: Fate,
    pub cursor: u32,
    pub frame: Frame,
}

// The nesting and the last `true`, here and below, are those of `all` over the definition's list: so the two compute alike.
pub(crate) fn takes(b: Board, d: u32) -> bool
    ensures { result ≡ takes b d }
{
    let c = b.core;
    (c.control.selection == 0)
        & (!c.calibration.running
            & (!closed(c) & ((b.size.fitted <= b.size.code) & (!is_full(d, b.ring.count) & true))))
}

pub(crate) fn ticks(c: Core) -> bool
    ensures { result ≡ ticks c }
{
    (c.control.selection == 0) & (tick_accepted(c) & true)
}

// Whether it can be done at once.
pub(crate) fn quick(b: Board, d: u32, common: Common) -> bool
    ensures { result ≡ quick b d common }
{
    match common {
        Common::Load(_) => b.core.powered & takes(b, d),
        Common::Tick => b.core.powered & ticks(b.core),
    }
}

// The event, done on a board of a run whose levels are lent.
pub(crate) fn at_once(
    b: Board,
    d: u32,
    common: Common,
    levels: &mut [u16; 20],
    memory: &mut [u32],
) -> Change
    requires { Told (depth (capped_board b)) d × (quick b d common ≡ true) × InRun (state_of (board_with b levels.old) memory.old) }
    ensures { Stepped (board_with b levels.old) memory.old (common_event common) (reply_of b result levels.new) memory.new }
{
    let core = b.core;
    let before = Frame {
        ring: b.ring,
        burst: core.burst,
        load: core.load,
    };
    match common {
        Common::Load(value) => {
            let stored = load(core, d, b.ring, d, value, memory);
            Change {
                moved: 0,
                fate: stored.fate,
                cursor: core.outputs.cursor,
                frame: Frame {
                    ring: stored.ring,
                    ..before
                },
            }
        }
        Common::Tick => {
            let served = serve(core, b.ring.count);
            let frame = deal(
                served.mask,
                before,
                core.control.binary,
                served.again,
                d,
                levels,
                memory,
            );
            Change {
                moved: served.moved,
                fate: Fate::NoLoad,
                cursor: served.cursor,
                frame,
            }
        }
    }
}
