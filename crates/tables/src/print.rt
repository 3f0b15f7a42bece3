// What the program writes of a session: the refusal, the channels that are not at positive zero throughout, and the memory.
use crate::decimals::Decimal;
use sizes::SizeRefusal;
use std::io;
use volt_rules::Extremes;
use volts::VoltRefusal;

// Positive zero: a share of the other one is below it. std tells a sign only of what is proved to be a number.
fn is_zero(x: f32) -> bool {
    (x == 0.0) & (0.0 < 1.0 / x)
}

fn channel(rt: &impl Print, k: usize, x: Extremes) -> io::Result<()> {
    if is_zero(x.lowest) & is_zero(x.highest) & is_zero(x.last) {
        return Ok(());
    }
    let lowest = Decimal(x.lowest);
    let highest = Decimal(x.highest);
    let last = Decimal(x.last);
    println!(rt; "  channel {k} lowest {lowest} highest {highest} last {last}")
}

// Where the session is refused, each channel is at zero.
pub(crate) fn table(rt: &impl Print, table: Result<[Extremes; 20], VoltRefusal>) -> io::Result<()> {
    match table {
        Ok(channels) => {
            println!(rt; "  refusal 0")?;
            for (k, x) in channels.iter().enumerate() {
                channel(rt, k, *x)?;
            }
            Ok(())
        }
        Err(why) => {
            let refusal = u32::from(why);
            println!(rt; "  refusal {refusal}")
        }
    }
}

// Where it is refused, the code is 0.
pub(crate) fn size(rt: &impl Print, size: Result<u32, SizeRefusal>) -> io::Result<()> {
    match size {
        Ok(code) => println!(rt; "  refusal 0 code {code}"),
        Err(why) => {
            let refusal = u32::from(why);
            println!(rt; "  refusal {refusal} code 0")
        }
    }
}

pub(crate) fn memory(rt: &impl Print, entries: &[u32]) -> io::Result<()> {
    print!(rt; "  memory")?;
    for entry in entries {
        print!(rt; " {entry}")?;
    }
    println!(rt)
}
