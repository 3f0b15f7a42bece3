// The fenced blocks of a document in Markdown.

// A line, as far as there is room from a place on, and the place after it. The room is fixed: so a place goes on.
fn put(line: &[u8], out: &mut [u8], at: usize) -> usize {
    let room = out.len().saturating_sub(at);
    let line = &line[..line.len().min(room)];
    if let Some(place) = out.get_mut(at..at + line.len()) {
        place.copy_from_slice(line);
    }
    at + line.len()
}

// The text of all blocks that the line `fence` opens, one after another: what of the output they fill.
pub(crate) fn blocks<'a>(doc: &[u8], fence: &[u8], out: &'a mut [u8; 65537]) -> &'a [u8] {
    let mut n = 0;
    let mut inside = false;
    for line in doc.split_inclusive(|c| *c == b'\n') {
        let words = line.strip_suffix(b"\n").unwrap_or(line);
        if !inside {
            inside = words == fence;
        } else if words == b"```".as_slice() {
            inside = false;
        } else {
            n = put(line, out, n);
        }
    }
    &out[..n.min(out.len())]
}
