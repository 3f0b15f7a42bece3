// Files of the working folder, read whole.
use crate::faults::Wrong;
use console::read_all;
use std::{fs, io};

// One that is longer than 65,536 bytes counts as failed: there is room for one byte more, by which it is known.
fn whole<'a>(
    rt: &HostRuntime,
    name: &str,
    ending: &str,
    buf: &'a mut [u8; 65537],
) -> io::Result<&'a [u8]> {
    let path = format!(in rt.alloc(); "{name}{ending}")?;
    let mut file = fs::open(rt, path.as_str())?;
    let n = read_all(&mut file, buf)?;
    if 65536 < n {
        return Err(io::Error::other("longer than 65,536 bytes"));
    }
    Ok(&buf[..n])
}

// The file of this name and ending.
pub(crate) fn read<'a>(
    rt: &HostRuntime,
    name: &str,
    ending: &'static str,
    buf: &'a mut [u8; 65537],
) -> Result<&'a [u8], Wrong> {
    whole(rt, name, ending, buf).map_err(|_| Wrong::Unread(ending))
}
