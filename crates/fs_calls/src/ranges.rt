//! Ranges of a file's bytes: what a read answers of them, and what a write puts over. The comparisons with the limits
//! of files and directories are here too, and nowhere else.

ghost use Rattle.std.specs.Prelude.{◌≡◌, ◌≤◌, ◌+◌, ◌++◌, take, drop, length, nat_le};

/// The bytes from an offset on, and no more than a count.
pub fn part(bytes: &[u8], off: u64, count: u64) -> &[u8]
    ensures { result.now ≡ take count (drop off bytes.now) }
{
    if off >= bytes.len() as u64 {
        return &[];
    }
    let rest = &bytes[off as usize..];
    if count >= rest.len() as u64 {
        return rest;
    }
    &rest[..count as usize]
}

/// Whether a file of at most so many bytes can be as long as an offset and so many bytes from it on.
pub fn fits(most: usize, off: u64, count: usize) -> bool
    ensures { result ≡ nat_le (off + count) most }
{
    off <= most as u64 && count <= most - off as usize
}

/// Whether a file of at most so many bytes can have this size.
pub fn fits_size(most: usize, size: u64) -> bool
    ensures { result ≡ nat_le size most }
{
    size <= most as u64
}

/// Whether a directory that has at most so many entries can have no more than these.
pub fn is_full(most: usize, entries: usize) -> bool
    ensures { result ≡ nat_le most entries }
{
    entries >= most
}

/// Puts bytes over those from an offset on.
pub fn put(old: &mut [u8], off: usize, bytes: &[u8])
    requires { off + length bytes.now ≤ length old.old }
    ensures { old.new ≡ take off old.old ++ bytes.now ++ drop (off + length bytes.now) old.old }
{
    old[off..off + bytes.len()].copy_from_slice(bytes);
}
