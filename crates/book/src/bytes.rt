//! Numbers in a file, high byte first. A place past the end reads as 0.
ghost use Rattle.std.specs.Prelude.{◌≡◌, drop};
ghost use Rattle.meaning.specs.Bytes.{byte_at, two_at, four_at, part};

use super::spelling::spelt_at;

/// The byte at a place.
pub(crate) fn byte(bytes: &[u8], at: usize) -> u8
    ensures { result ≡ byte_at bytes.now at }
{
    bytes.get(at).copied().unwrap_or(0)
}

/// The number that the two bytes at a place make.
pub(crate) fn two(bytes: &[u8], at: usize) -> u16
    ensures { result ≡ two_at bytes.now at }
{
    spelt_at(bytes, at)
}

/// The number that the four bytes at a place make.
pub(crate) fn four(bytes: &[u8], at: usize) -> u32
    ensures { result ≡ four_at bytes.now at }
{
    spelt_at(bytes, at)
}

/// The bytes from a place on.
pub(crate) fn rest(bytes: &[u8], from: usize) -> &[u8]
    ensures { result.now ≡ drop from bytes.now }
{
    bytes.get(from..).unwrap_or(&[])
}

/// The `count` bytes from a place on, or those of them that there are.
pub(crate) fn piece(bytes: &[u8], from: usize, count: usize) -> &[u8]
    ensures { result.now ≡ part bytes.now from count }
{
    let rest = rest(bytes, from);
    rest.get(..count).unwrap_or(rest)
}
