// The smallest size for hosts in Rust and C. A slice is a pointer and then a length on their side, and `code` a pointer (hosts/).
ghost use Rattle.sizes.specs.Promises.{SizeNamed};

use crate::smallest_size;

// The smallest size of a session file over the sample memory. Answers the refusal number, 0 where a code is named; `code` is that code,
// and 0 where it was refused.
pub fn nergutsai_smallest_size(file: &[u8], memory: &mut [u32], code: &mut u32) -> u32
    ensures { SizeNamed file.now memory.old (record { refusal = result; code = code.new }) memory.new }
{
    match smallest_size(file, memory) {
        Ok(named) => {
            *code = named;
            0
        }
        Err(why) => {
            *code = 0;
            u32::from(why)
        }
    }
}
