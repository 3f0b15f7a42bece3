// The desk at which a case is worked: a board, and what has been read of the line. There is fixed room for all of it.

#[derive(Drop)]
pub(crate) struct Desk {
    // The board is a row of 55 numbers, as hosts have it: so a record can be handed in with any one number broken.
    pub(crate) row: [u32; 55],
    // The sample memory, as long as that of `rehearse`, and how many entries of it the board is lent.
    pub(crate) memory: [u32; 16384],
    pub(crate) lent: u32,
    // By which number the last event was refused, and what it read, as hosts have them.
    pub(crate) refusal: u32,
    pub(crate) register: u32,
    // The act that is being read: its letter; its numbers so far, in the six places that it has for them, and as the bytes of a file; how
    // many there are; and the one whose digits are being read.
    pub(crate) letter: u8,
    pub(crate) numbers: [u32; 6],
    pub(crate) bytes: [u8; 16],
    pub(crate) count: usize,
    pub(crate) number: u32,
    // Rows for the writer, how many numbers of them there are, and its output.
    pub(crate) slice: [u32; 24],
    pub(crate) held: usize,
    pub(crate) output: [u8; 40],
}

impl Desk {
    // An unpowered board. It is lent 8 entries of memory, the least depth, and they have values that no load stores.
    pub(crate) fn new() -> Desk {
        Desk {
            row: [0; 55],
            memory: [7000000; 16384],
            lent: 8,
            refusal: 99,
            register: 99,
            letter: b'R',
            numbers: [0; 6],
            bytes: [0; 16],
            count: 0,
            number: 0,
            slice: [0; 24],
            held: 0,
            output: [238; 40],
        }
    }
}
