//! When bytes hold others.
ghost use Rattle.std.specs.Prelude.{◌≡◌};
ghost use Rattle.volume_index.specs.Holding as spec;

/// Whether some bytes stand in others.
pub(crate) fn holds(part: &[u8], bytes: &[u8]) -> bool
    ensures { result ≡ spec.holds part.now bytes.now }
{
    let mut rest = bytes;
    while let [_, others @ ..] = rest {
        if begins(part, rest) {
            return true;
        }
        rest = others;
    }
    begins(part, rest)
}

/// Whether bytes begin with these.
fn begins(part: &[u8], bytes: &[u8]) -> bool
    ensures { result ≡ spec.begins part.now bytes.now }
{
    let mut wanted = part;
    let mut rest = bytes;
    while let [first, later @ ..] = wanted {
        let [byte, others @ ..] = rest else {
            return false;
        };
        if *first != *byte {
            return false;
        }
        wanted = later;
        rest = others;
    }
    true
}
