// The session reader: the lent file bytes and the place of the next record. `item` takes the struct apart and asks crate
// `session`; `read_at` stands above, with plain parameters, and is what `next` of crate `run` calls for every record.
#![tactic(auto)]

ghost use Rattle.rules.specs.ToldInNumbers.{ToldInNumbers};
ghost use Rattle.file_rules.specs.Item.{item_of};
ghost use Rattle.file_rules.specs.File.{item_at};
ghost use Rattle.file_rules.specs.Numbers.{item_numbers};
ghost use Rattle.reader.specs.Promises.{Opened};

use file_rules::Item;
use session::item_at;

#[derive(Clone, Copy)]
pub struct Reader<'a> {
    pub bytes: &'a [u8],
    pub place: usize,
}

// A reader of these bytes at a place; 0 is the start of the file.
pub fn open<'a>(bytes: &'a [u8], place: usize) -> Reader<'a>
    ensures { Opened bytes.entry place result }
{
    Reader { bytes, place }
}

// The record at the reader's place.
pub fn item<'a>(r: Reader<'a>) -> Item
    ensures { ToldInNumbers item_numbers (item_at r.entry.bytes.now r.entry.place) (item_of result) }
{
    item_at(r.bytes, r.place)
}

// The record at a place of these bytes.
pub fn read_at(s: &[u8], at: usize) -> Item
    ensures { ToldInNumbers item_numbers (item_at s.now at) (item_of result) }
{
    item(open(s, at))
}
