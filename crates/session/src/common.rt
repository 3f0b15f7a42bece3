// The bytes that stand at a place.
ghost use Rattle.std.specs.Prelude.{◌≡◌, ◌≢◌, ◌<◌, length, drop};

// The bytes from a place on; none at the start of the file, where no record stands.
pub(crate) fn ahead(s: &[u8], at: usize) -> &[u8]
    ensures { 0 < length result.now → (at ≢ 0) × (result.now ≡ drop at s.now) }
{
    if at == 0 {
        return &[];
    }
    s.get(at..).unwrap_or(&[])
}
