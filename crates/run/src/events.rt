// The events of a session file, one after another.
ghost use Rattle.std.specs.Prelude.{◌≡◌};
ghost use Rattle.std.specs.Iterator.{YieldsFirst, item_count};
ghost use Rattle.file_rules.specs.File.{session};
ghost use Rattle.run.specs.Items.{items_of};

use crate::{Cursor, next};
use file_rules::FileError;
use rules::Event;
use std::marker::Model;

// The events of a session file that are still to come, and at its end why it is refused, where it is; seen as their list.
#[derive(Drop)]
pub struct Events<'a> {
    file: &'a [u8],
    ahead: Option<Cursor>,
}

impl<'a> Model for Events<'a> {
    ghost use Rattle.std.specs.Prelude.{List, Result, IfSome, length, ◌≤◌};
    ghost use Rattle.rules.specs.declared.Event.{Event};
    ghost use Rattle.file_rules.specs.declared.FileError.{FileError};
    ghost use Rattle.run.specs.Items.{left};

    ghost Value = { List (Result Event FileError) };

    ghost view = { λ it. left it.file.now it.ahead };

    ghost invariant = { λ it. IfSome it.ahead (λ c. c.place ≤ length it.file.now) };
}

impl<'a> Events<'a> {
    // Those of a whole file.
    pub fn of(s: &'a [u8]) -> Self
        ensures { result ≡ items_of (session s.now) }
    {
        Events {
            file: s,
            ahead: Some(Cursor { place: 0 }),
        }
    }
}

impl<'a> Iterator for Events<'a> {
    type Item = Result<Event, FileError>;

    ghost next_gives = { YieldsFirst (λ rest. rest) };

    ghost remaining = { item_count (λ rest. rest) };

    fn next(&mut self) -> Option<Result<Event, FileError>> {
        let c = self.ahead?;
        match next(self.file, c) {
            Ok(Some((e, after))) => {
                self.ahead = Some(after);
                Some(Ok(e))
            }
            Ok(None) => {
                self.ahead = None;
                None
            }
            Err(x) => {
                self.ahead = None;
                Some(Err(x))
            }
        }
    }
}
