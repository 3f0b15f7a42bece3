// Lowest, highest and last volts of the twenty channels over a session (02, 2026-03): the type that specs/ speaks of and that the crates
// above work on. There is no function here: which levels count, and what the volts of a level are, is said in specs/.
#![tactic(auto)]

// 02: "one record per channel holding three f32 numbers in volts: lowest, highest, last"
#[derive(Clone, Copy, Debug, PartialEq)]
pub struct Extremes {
    pub lowest: f32,
    pub highest: f32,
    pub last: f32,
}
