// Hex text, in which people write session files: the type that specs/ speaks of. There is no function here: what a text says is said in
// specs/.
#![tactic(auto)]

// A character that says nothing, and whether what follows is in a comment; the two digits of a byte; or no hex text. The rules choose among
// these three, and a fault is no less an answer than the others: so it is no Option or Result.
#[derive(Clone, Copy)]
pub enum Mark {
    Passed(bool),
    Byte(u8),
    Fault,
}
