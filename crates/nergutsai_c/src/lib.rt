// What hosts in C and Rust call, under the names of hosts/c/nergutsai.h: each function calls the one of its library that has its name
// and its promise. A slice is a pointer and then a length on their side, and a reference to a number or an array a pointer (hosts/).
// What is answered is a number, and a second answer is written through a reference: C has no Result.
#![tactic(auto)]

ghost use Rattle.bridge.specs.Promises.{Called, RateCalled};
ghost use Rattle.listing.specs.Promises.{ListCalled};
ghost use Rattle.sizes.specs.Promises.{SizeNamed};
ghost use Rattle.volts.specs.Promises.{VoltsCalled};
ghost use Rattle.writer.specs.Promises.{Writes, Cuts, cut_of};

// One event on a board's row. Answers 0 where the call was understood, be the event done or refused; else why it was not.
#[unsafe(no_mangle)]
pub extern "C" fn nergutsai_event(
    row: &mut [u32],
    memory: &mut [u32],
    event: &[u32],
    answer: &mut [u32],
) -> u32
    ensures { Called row.old memory.old event.now answer.old result row.new memory.new answer.new }
{
    bridge::nergutsai_event(row, memory, event, answer)
}

// The rate question, which asks a record alone and leaves it as it is.
#[unsafe(no_mangle)]
pub extern "C" fn nergutsai_rate(row: &[u32], figures: &mut [u32]) -> u32
    ensures { RateCalled row.now figures.old result figures.new }
{
    bridge::nergutsai_rate(row, figures)
}

// The listing of a session file, as so many bytes of text in the output; 0 where the output is too short, and nothing is written.
#[unsafe(no_mangle)]
pub extern "C" fn nergutsai_list(file: &[u8], memory: &mut [u32], out: &mut [u8]) -> usize
    ensures { ListCalled file.now memory.old out.old result memory.new out.new }
{
    listing::nergutsai_list(file, memory, out)
}

// The smallest size of a session file over the sample memory: the refusal number, and the code in `code`.
#[unsafe(no_mangle)]
pub extern "C" fn nergutsai_smallest_size(file: &[u8], memory: &mut [u32], code: &mut u32) -> u32
    ensures { SizeNamed file.now memory.old (record { refusal = result; code = code.new }) memory.new }
{
    sizes::nergutsai_smallest_size(file, memory, code)
}

// Lowest, highest and last volts of channel 0, then of channel 1, and so on: the refusal number, and sixty numbers.
#[unsafe(no_mangle)]
pub extern "C" fn nergutsai_volts(file: &[u8], memory: &mut [u32], numbers: &mut [f32; 60]) -> u32
    ensures { VoltsCalled file.now memory.old result memory.new numbers.new }
{
    volts::nergutsai_volts(file, memory, numbers)
}

// A session of these rows, six numbers an event, in the output from a place on: the refusal number, and in `end` the place after it.
#[unsafe(no_mangle)]
pub extern "C" fn nergutsai_write(
    rows: &[u32],
    out: &mut [u8],
    place: usize,
    end: &mut usize,
) -> u32
    ensures { Writes rows.now out.old place (record { refusal = result; place = end.new }) out.new }
{
    writer::nergutsai_write(rows, out, place, end)
}

// The session that loads a cut of a recording, in the output from a place on: the refusal number, and in `end` the place after it.
#[unsafe(no_mangle)]
pub extern "C" fn nergutsai_cut(
    recording: &[u16],
    channels: u32,
    first: usize,
    last: usize,
    mask: u32,
    out: &mut [u8],
    place: usize,
    end: &mut usize,
) -> u32
    ensures { Cuts (cut_of recording.now channels first last mask) out.old place (record { refusal = result; place = end.new }) out.new }
{
    writer::nergutsai_cut(recording, channels, first, last, mask, out, place, end)
}
