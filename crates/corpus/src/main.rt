// The frozen corpus: plays each session on standard input and prints its number and the checksum of its listing. So a change to any byte
// of any listing shows as a line that differs. Nothing is promised of what is written; every function is proved safe.
#![tactic(auto)]

use console::read_all;
use listing::list;
use std::io;

mod checksum;
mod print;

// The session on standard input: a length of two bytes, the high one first, and then so many bytes, as far as that goes. They are at most
// 1,000. None where there is no length.
fn next_session<'a>(rt: &HostRuntime, room: &'a mut [u8; 1000]) -> io::Result<Option<&'a [u8]>> {
    let mut head = [0u8; 2];
    if read_all(&mut rt.stdin(), &mut head)? < 2 {
        return Ok(None);
    }
    let length = usize::from(u16::from_be_bytes(head));
    let session = &mut room[..length.min(1000)];
    let n = read_all(&mut rt.stdin(), session)?;
    Ok(Some(&session[..n]))
}

// The checksum of a session's listing, for which there is room: 160 + 22 · 1,000 bytes.
fn play(session: &[u8], memory: &mut [u32; 16384]) -> Option<u32> {
    let mut out = [0u8; 22160];
    match list(session, memory, &mut out) {
        Ok(n) => Some(checksum::of(&out[..n.min(out.len())])),
        // never with the room above
        Err(_) => None,
    }
}

// The sample memory is as large as in `rehearse`. It keeps its values from session to session: a listing that looked at what an earlier
// session left there would differ from that of the session alone.
fn main(rt: HostRuntime) -> io::Result<()> {
    let mut memory = [0u32; 16384];
    // A proved loop has to end, and nothing says that the input does. So the numbers end, at one that no run comes to.
    for number in 1..u64::MAX {
        let mut room = [0u8; 1000];
        let Some(session) = next_session(&rt, &mut room)? else {
            break;
        };
        let Some(sum) = play(session, &mut memory) else {
            break;
        };
        print::line(&rt, number, sum)?;
    }
    Ok(())
}
