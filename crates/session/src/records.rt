// The records of a file.
ghost use Rattle.std.specs.Prelude.{◌≡◌, ◌<◌};
ghost use Rattle.file_rules.specs.Item.{item_of};
ghost use Rattle.file_rules.specs.File.{record_at};

use crate::fields::{byte_at, event_at, word_at};
use file_rules::{Fault, FileError, Item};
use kinds::Kind;

// 01: "then per record 11, length 0 (12), 13, 12".
pub(crate) fn record_at(s: &[u8], at: usize) -> Item
    ensures { item_of result ≡ record_at s.now at }
{
    if s.len() <= at {
        return Ok(None);
    }
    let left = s.len() - at;
    let cut = FileError {
        fault: Fault::Cut,
        place: at,
    };
    if left < 2 {
        return Err(cut);
    }
    let n = usize::from(word_at(s, at));
    if left - 2 < n {
        return Err(cut);
    }
    let wrong_length = FileError {
        fault: Fault::Length,
        place: at,
    };
    if n == 0 {
        return Err(wrong_length);
    }
    let Ok(kind) = Kind::try_from(byte_at(s, at + 2)) else {
        return Err(FileError {
            fault: Fault::Kind,
            place: at,
        });
    };
    if n != kind.length() as usize {
        return Err(wrong_length);
    }
    Ok(Some((event_at(s, at + 2, kind), at + 2 + n)))
}
