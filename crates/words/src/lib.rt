// Big-endian words in byte slices: read as a number, or not at all where they reach past the end.
#![tactic(auto)]

ghost use Rattle.std.specs.Prelude.{◌≡◌, ◌+◌, ◌<◌, ◌≤◌, length, take, drop, MatchOption};
ghost use Rattle.words.specs.BigEndian.{word16, word32};

// The N bytes from `at` on.
fn bytes_at<const N: usize>(bytes: &[u8], at: usize) -> Option<[u8; N]>
    ensures { MatchOption result (length bytes.now < at + N) (λ part. (at + N ≤ length bytes.now) × (part ≡ take N (drop at bytes.now))) }
{
    bytes.get(at..)?.first_chunk().copied()
}

// The two bytes from `at` on, high byte first.
pub fn u16_at(bytes: &[u8], at: usize) -> Option<u16>
    ensures { result ≡ word16 bytes.now at }
{
    bytes_at(bytes, at).map(u16::from_be_bytes)
}

// The four bytes from `at` on, high byte first.
pub fn u32_at(bytes: &[u8], at: usize) -> Option<u32>
    ensures { result ≡ word32 bytes.now at }
{
    bytes_at(bytes, at).map(u32::from_be_bytes)
}
