// The listing for hosts in Rust and C. A slice is a pointer and then a length on their side (hosts/).
ghost use Rattle.listing.specs.Promises.{ListCalled};

use crate::list;

// The listing of a session file, as so many bytes of text in the output; 0 where the output is too short, and nothing is written.
pub fn nergutsai_list(file: &[u8], memory: &mut [u32], out: &mut [u8]) -> usize
    ensures { ListCalled file.now memory.old out.old result memory.new out.new }
{
    list(file, memory, out).unwrap_or(0)
}
