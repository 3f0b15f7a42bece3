// Two texts held against each other.

// The first place where two texts differ; where one goes on after the other has ended, that is the end of the shorter.
pub(crate) fn first_difference(a: &[u8], b: &[u8]) -> Option<usize> {
    if a == b {
        return None;
    }
    let place = a.iter().zip(b).position(|(x, y)| *x != *y);
    Some(place.unwrap_or(a.len().min(b.len())))
}
