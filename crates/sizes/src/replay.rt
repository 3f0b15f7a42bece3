// The replays of a session, one code after another, and the look for what is wrong with its file. The loops hold a cursor, as every loop
// over a session: their law is that of specs/Way.antt of `run`.
ghost use Rattle.std.specs.Prelude.{◌<◌, ◌≡◌, eqb};
ghost use Rattle.rules.specs.Numbered.{answer_of};
ghost use Rattle.file_rules.specs.Item.{end_of};
ghost use Rattle.file_rules.specs.File.{session};
ghost use Rattle.sizes.specs.Replaying.{ReplayTold, LowestTold};

use crate::sized::sized;
use board::step;
use file_rules::FileError;
use record::unpowered;
use rules::{Done, Fate, Refusal};
use run::{Cursor, next};

// How the file ends. 02: "10 to 13 first, with the memory untouched": nothing is played.
pub(crate) fn file_end(s: &[u8]) -> Result<(), FileError>
    ensures { end_of result ≡ (session s.now).end }
{
    let mut c = Cursor { place: 0 };
    while let Some((_, after)) = next(s, c)? {
        c = after;
    }
    Ok(())
}

// 02: "nothing is lost to a full buffer": a value lost to a closed one does not count.
fn loses(answer: Result<Done, Refusal>) -> bool
    ensures { result ≡ eqb (answer_of answer).fate 2 }
{
    matches!(
        answer,
        Ok(Done {
            fate: Fate::LostToFull,
            ..
        })
    )
}

// One replay, to its end: whether nothing was lost to a full buffer.
fn replay(s: &[u8], memory: &mut [u32], code: u32) -> bool
    requires { code < 16 }
    ensures { ReplayTold s.now memory.old code result memory.new }
{
    let mut b = unpowered();
    let mut c = Cursor { place: 0 };
    let mut whole = true;
    while let Ok(Some((e, after))) = next(s, c) {
        let r = step(b, memory, sized(code, e));
        b = r.board;
        whole = whole & !loses(r.answer);
        c = after;
    }
    whole
}

// 02: "the lowest code from 0 to 15 at which nothing is lost to a full buffer"; "each over what the one before left"
pub(crate) fn lowest_code(s: &[u8], memory: &mut [u32]) -> Option<u32>
    ensures { LowestTold s.now memory.old result memory.new }
{
    for code in 0..16 {
        if replay(s, memory, code) {
            return Some(code);
        }
    }
    None
}
