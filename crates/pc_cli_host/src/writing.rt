ghost use Rattle.std.specs.Prelude.{◌≡◌, ℕ, take, true, false};
ghost use Rattle.std.specs.Io.KnownBytes.{Appends};

use std::io::Write;

/// Writes the whole piece; false where a write failed or took nothing.
pub(crate) fn write_whole<W: Write>(to: &mut W, piece: &[u8]) -> bool
    ensures all { result ≡ true → Appends (W.contents to.old) (W.contents to.new) piece.now }
    ensures front { result ≡ false → (n : ℕ) × Appends (W.contents to.old) (W.contents to.new) (take n piece.now) }
{
    let mut rest = piece;
    while !rest.is_empty() {
        match to.write(rest) {
            Ok(0) => return false,
            Ok(count) => rest = &rest[count..],
            Err(_) => return false,
        }
    }
    to.flush().is_ok()
}
