// The way through a session file. `next` tells what stands at a cursor, and every loop over a session goes from event to event by it;
// `advance` is `next` and `step`, one record played; `run` is the plain loop over `advance`. A loop that has to see the event, as that of
// crate `listing`, uses `next` and `step`. The law of all these loops is in specs/Way.antt.
#![tactic(auto)]

ghost use Rattle.rules.specs.ToldInNumbers.{ToldInNumbers};
ghost use Rattle.run.specs.Promises.{Advances, Runs};
ghost use Rattle.run.specs.Ahead.{ahead_of};
ghost use Rattle.run.specs.Run.{found};
ghost use Rattle.run.specs.Numbers.{ahead_numbers};

use board::step;
use file_rules::FileError;
use reader::read_at;
use record::unpowered;
use rules::{Board, Done, Event, Refusal};

mod events;

pub use events::Events;

// How far a session has been read.
#[derive(Clone, Copy)]
pub struct Cursor {
    pub place: usize,
}

// What stands at a cursor: an event, and the cursor after it; nothing, where the file ends; or why it is refused.
pub type Ahead = Result<Option<(Event, Cursor)>, FileError>;

// One record: the event's answer and the cursor after it; nothing, where the file ends; or why it is refused.
pub type Progress = Result<Option<(Result<Done, Refusal>, Cursor)>, FileError>;

#[derive(Clone, Copy)]
pub struct Advanced {
    pub progress: Progress,
    pub board: Board,
}

// The board that a session leaves, and how the file ends.
#[derive(Clone, Copy)]
pub struct Ran {
    pub end: Result<(), FileError>,
    pub board: Board,
}

// The event at the cursor, or how the file ends.
pub fn next(s: &[u8], c: Cursor) -> Ahead
    ensures { ToldInNumbers ahead_numbers (found s.now c) (ahead_of result) }
{
    let item = read_at(s, c.place)?;
    Ok(item.map(|(event, place)| (event, Cursor { place })))
}

// The record at the cursor, played on a board and its sample memory. Where the file ends the board comes back as it was given.
pub fn advance(s: &[u8], c: Cursor, b: Board, memory: &mut [u32]) -> Advanced
    ensures { Advances s.now c b memory.old result memory.new }
{
    match next(s, c) {
        Ok(Some((event, after))) => {
            let r = step(b, memory, event);
            Advanced {
                progress: Ok(Some((r.answer, after))),
                board: r.board,
            }
        }
        Ok(None) => Advanced {
            progress: Ok(None),
            board: b,
        },
        Err(x) => Advanced {
            progress: Err(x),
            board: b,
        },
    }
}

// 01: "A run starts unpowered and goes on past refused events and lost values. A file refusal stops it, and record and memory stay as
// the earlier records left them." It is `advance` again and again, so that what one record does stands once.
pub fn run(s: &[u8], memory: &mut [u32]) -> Ran
    ensures { Runs s.now memory.old result memory.new }
{
    let mut board = unpowered();
    let mut c = Cursor { place: 0 };
    loop {
        let a = advance(s, c, board, memory);
        board = a.board;
        let progress = a.progress;
        match progress {
            Ok(Some((_, after))) => {
                c = after;
            }
            Ok(None) => {
                return Ran { end: Ok(()), board };
            }
            Err(x) => {
                return Ran { end: Err(x), board };
            }
        }
    }
}
