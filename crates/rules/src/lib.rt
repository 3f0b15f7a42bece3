// The board record of document 01, its events and its answers: the types that the specification in specs/ speaks of
// and that the crates above work on. There is no function here: what the board does is said in specs/.
#![tactic(auto)]

// ---- Events

// 01: "Power-up gives a fitted code d (0 to 15), range, filter and kit codes (0 to 2) and a firmware number (0 to 4095)."
// The fields take any number: one out of range is refused.
#[derive(Clone, Copy)]
pub struct Settings {
    pub fitted: u32,
    pub range: u32,
    pub filter: u32,
    pub kit: u32,
    pub firmware: u32,
}

// What reaches the board otherwise than over the bus: a tick of the rate generator, an outside clock, an outside trigger,
// the end of a calibration, the end of settling. `as u32` is the kind of its record in a session file.
#[derive(Clone, Copy, Debug, PartialEq, Eq)]
pub enum Signal {
    Tick = 4,
    Outside = 5,
    Trigger = 6,
    Passed = 7,
    Failed = 8,
    Settled = 9,
}

#[derive(Clone, Copy)]
pub enum Event {
    PowerUp(Settings),
    Write { offset: u32, value: u32 },
    Read { offset: u32 },
    Signal(Signal),
}

// ---- Answers

// Why an event or a rate question is refused; `as u32` is document 01's number of it, as `refusal_number` in specs/Numbered.antt says.
#[derive(Clone, Copy, Debug, PartialEq, Eq)]
pub enum Refusal {
    FittedCode = 1,
    ShortMemory = 2,
    Unsound = 3,
    NoRegister = 4,
    ReadOnly = 5,
    Calibrating = 6,
    NothingEnds = 7,
    DivisorZero = 8,
    ExternalClock = 9,
    RangeCode = 14,
    FilterCode = 15,
    KitCode = 16,
    Firmware = 17,
}

// 01: "load fate (0 none, 1 stored, 2 lost to full, 3 lost to closed)"; `as u32` is that number, as `fate_number` in specs/Clocks.antt
// says.
#[derive(Clone, Copy, Debug, PartialEq, Eq)]
pub enum Fate {
    NoLoad = 0,
    Stored = 1,
    LostToFull = 2,
    LostToClosed = 3,
}

// What an event that is done answers; one that is refused answers its `Refusal`. 01: "register value (0 unless a read); values moved
// (0 to 20); load fate".
#[derive(Clone, Copy, Debug, PartialEq, Eq)]
pub struct Done {
    pub register: u32,
    pub moved: u32,
    pub fate: Fate,
}

// 01: "A rate question answers .. whole reference and rate", in hertz.
#[derive(Clone, Copy, Debug, PartialEq, Eq)]
pub struct Frequencies {
    pub reference: u32,
    pub rate: u32,
}

// ---- The board record

// What power-up fixes, but for the fitted code. The numbers of a record are 32 bits wide, so that any damaged record can be handed in:
// soundness is a test, and no matter of types.
#[derive(Clone, Copy, Default)]
pub struct Options {
    pub range: u32,
    pub filter: u32,
    pub kit: u32,
    pub firmware: u32,
}

// The fitted code d and the size code (BOR D00-D03): all that says how much the active buffer holds.
#[derive(Clone, Copy, Default)]
pub struct Size {
    pub fitted: u32,
    pub code: u32,
}

// BCR D00, D03 to D10.
#[derive(Clone, Copy, Default)]
pub struct Control {
    pub bursts: bool,
    pub ground_sense: bool,
    pub binary: bool,
    pub differential: bool,
    pub barred: bool,
    pub simultaneous: bool,
    pub selection: u32,
}

// BOR D04, D05, D08.
#[derive(Clone, Copy, Default)]
pub struct Mode {
    pub external: bool,
    pub enabled: bool,
    pub circular: bool,
}

// Calibrating (BCR D13), failed (BCR D14), and 01's "calibrated".
#[derive(Clone, Copy, Default)]
pub struct Calibration {
    pub running: bool,
    pub failed: bool,
    pub calibrated: bool,
}

// 08h and 1Ch, and whether the adjustable clock is settling.
#[derive(Clone, Copy, Default)]
pub struct Clock {
    pub divisor: u32,
    pub nclk: u32,
    pub alt: bool,
    pub settling: bool,
}

// A burst in progress, and whether software started it.
#[derive(Clone, Copy, Default)]
pub struct Burst {
    pub running: bool,
    pub software: bool,
}

// A load request that waits for the frame's end, and a circular buffer that one has opened.
#[derive(Clone, Copy, Default)]
pub struct Load {
    pub pending: bool,
    pub opened: bool,
}

// BUFFER OVERFLOW (BOR D16) and FRAME OVERFLOW (BOR D17).
#[derive(Clone, Copy, Default)]
pub struct Lost {
    pub full: bool,
    pub closed: bool,
}

// The channel mask (04h), the channel cursor of sequential mode, and the twenty levels.
#[derive(Clone, Copy, Default)]
pub struct Outputs {
    pub mask: u32,
    pub cursor: u32,
    pub levels: [u16; 20],
}

// All of the board but its size, its interrupt request and where its values stand: what the rules of play may see.
#[derive(Clone, Copy, Default)]
pub struct Core {
    pub powered: bool,
    pub options: Options,
    pub control: Control,
    pub mode: Mode,
    pub calibration: Calibration,
    pub clock: Clock,
    pub burst: Burst,
    pub load: Load,
    pub lost: Lost,
    pub outputs: Outputs,
}

// Where the stored values stand in the sample memory.
#[derive(Clone, Copy, Default)]
pub struct Ring {
    pub first: u32,
    pub count: u32,
}

#[derive(Clone, Copy, Default)]
pub struct Board {
    pub core: Core,
    pub size: Size,
    pub request: bool,
    pub ring: Ring,
}
