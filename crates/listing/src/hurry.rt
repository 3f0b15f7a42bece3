// Loads and ticks, one after another: a loop of its own, so that what they do not change stays at hand. The levels, the core and the
// ring stand in locals, so that an event changes only what it must; the levels of the core are those of the start, and count for nothing.
ghost use Rattle.std.specs.Prelude.{◌≤◌, ◌≡◌, length};
ghost use Rattle.rules.specs.Clocks.{fate_number};
ghost use Rattle.run.specs.Ahead.{ahead_of};
ghost use Rattle.listing.specs.Shortcuts.{at_hand};
ghost use Rattle.listing.specs.Draft.{draft, Fair, Walked};

use crate::parts::with_levels;
use crate::shortcuts::{Common, at_once, common_of, quick};
use lines::put_done;
use record::depth;
use rules::{Board, Fate};
use run::{Ahead, Cursor, next};

// How far a session is played and written: the cursor, the board, the place in the output, and the number of the next line.
#[derive(Clone, Copy)]
pub(crate) struct Reached {
    pub cursor: Cursor,
    pub board: Board,
    pub at: usize,
    pub number: u32,
}

// The event ahead and the cursor after it, if it is one that can be done at once.
pub(crate) fn ready(b: Board, d: u32, ahead: Ahead) -> Option<(Common, Cursor)>
    ensures { result ≡ at_hand b d (ahead_of ahead) }
{
    let (common, after) = common_of(ahead)?;
    if quick(b, d, common) {
        Some((common, after))
    } else {
        None
    }
}

// 01: "load fate (0 none, 1 stored, ..)". A function and no `From`, which would have to stand in `rules`, among definitions.
fn fate_number(fate: Fate) -> u32
    ensures { result ≡ fate_number fate }
{
    fate as u32
}

// As far as these events go. The cursor goes on from here to `put_body` and back, so that no iterator holds it.
pub(crate) fn hurry(s: &[u8], start: Reached, memory: &mut [u32], out: &mut [u8]) -> Reached
    requires { (length s.now ≤ 65536) × Fair s.now start.cursor (draft start memory.old out.old) }
    ensures { Walked s.now start.cursor (draft start memory.old out.old) result.cursor (draft result memory.new out.new) }
{
    let b = start.board;
    let d = depth(b);
    let mut core = b.core;
    let mut levels = core.outputs.levels;
    let mut ring = b.ring;
    let mut cursor = start.cursor;
    let mut at = start.at;
    let mut number = start.number;
    while let Some((common, after)) = ready(Board { core, ring, ..b }, d, next(s, cursor)) {
        let change = at_once(Board { core, ring, ..b }, d, common, &mut levels, memory);
        let fate = fate_number(change.fate);
        at = put_done(out, at, number, change.moved, fate, change.frame.ring.count);
        core.outputs.cursor = change.cursor;
        core.burst = change.frame.burst;
        core.load = change.frame.load;
        ring = change.frame.ring;
        number += 1;
        cursor = after;
    }
    let core = with_levels(core, levels);
    Reached {
        cursor,
        board: Board { core, ring, ..b },
        at,
        number,
    }
}
