// The place after a byte.
ghost use Rattle.std.specs.Prelude.{◌≡◌, ◌<◌};
ghost use Rattle.reader_lines.specs.Places.{place_after};

// The place after a byte that has to stand at a place; none where another stands there. Past the end byte_at answers 0, which is not sought.
#[tactic(auto, using(crate::proofs::PlaceLaws::next_fits))]
pub(crate) fn after(text: &[u8], at: usize, byte: u8) -> Option<usize>
    requires { 0 < byte }
    ensures { result ≡ place_after text.now at byte }
{
    if reader_hex::byte_at(text, at) == byte {
        Some(at + 1)
    } else {
        None
    }
}
