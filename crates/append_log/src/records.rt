// A log's records in its bytes.
ghost use Rattle.std.specs.Prelude.{◌≡◌, ℕ, ◌+◌, ◌^◌, ◌<◌, ◌≤◌, length, replicate, MatchOption};
ghost use Rattle.append_log.specs.Records.{start, body, head_of, holds_below, holds_for, latest, Appended};

use crate::head::Head;
use device::{BLOCK_SIZE, Bytes};
use words::{u16_at, u32_at};

pub(crate) const HEAD_SIZE: usize = 6;

pub(crate) const RECORD_SIZE: usize = 2 + BLOCK_SIZE;

// Where record k starts.
fn start_of(k: u32) -> usize
    ensures { result ≡ start k }
{
    HEAD_SIZE + RECORD_SIZE * k as usize
}

// The head of a valid log, each of its used records looked at once.
pub(crate) fn check(bytes: &[u8]) -> Option<Head>
    ensures { result ≡ head_of bytes.now }
{
    let used = u32_at(bytes, 0)?;
    let count = u16_at(bytes, 4)?;
    if bytes.len() < start_of(used) {
        return None;
    }
    (0..used)
        .all(|k| is_below(bytes, k, count))
        .then_some(Head { used, count })
}

// Whether record k is for a block below `count`.
fn is_below(bytes: &[u8], k: u32, count: u16) -> bool
    ensures { result ≡ holds_below bytes.now count k }
{
    u16_at(bytes, start_of(k)).is_some_and(|number| number < count)
}

// Whether record k is for `block`.
fn is_for(bytes: &[u8], k: u32, block: u32) -> bool
    ensures { result ≡ holds_for bytes.now block k }
{
    u16_at(bytes, start_of(k)).is_some_and(|number| u32::from(number) == block)
}

// The newest of the first `used` records that is for `block`.
fn newest(bytes: &[u8], used: u32, block: u32) -> Option<u32>
    requires { start used ≤ length bytes.now }
    ensures { MatchOption result (latest bytes.now used block ≡ replicate 512 0) (λ k. (k < used) × (latest bytes.now used block ≡ body bytes.now k)) }
{
    (0..used).rev().find(|k| is_for(bytes, *k, block))
}

// Copies what the first `used` records leave in a block into `buffer`.
pub(crate) fn read(bytes: &[u8], used: u32, block: u32, buffer: &mut [u8])
    requires fits { start used ≤ length bytes.now }
    requires whole { length buffer.old ≡ 512 }
    ensures { buffer.new ≡ latest bytes.now used block }
{
    match newest(bytes, used, block) {
        Some(k) => {
            let start = start_of(k);
            buffer.copy_from_slice(&bytes[start + 2..start + RECORD_SIZE]);
        }
        None => buffer.fill(0),
    }
}

// Writes record number `used`, and counts it.
pub(crate) fn put_record<B: Bytes>(bytes: &mut B, used: u32, block: u16, source: &[u8])
    requires fits { start used + 514 ≤ length (B.bytes bytes.old) }
    requires countable { used + 1 < 2 ^ 32 }
    requires whole { length source.now ≡ 512 }
    ensures appends { Appended (B.bytes bytes.old) (B.bytes bytes.new) used block source.now }
    ensures keeps { B.kept bytes.old bytes.new }
{
    let start = start_of(used);
    let _ = bytes.overwrite(start, &block.to_be_bytes());
    let _ = bytes.overwrite(start + 2, source);
    let _ = bytes.overwrite(0, &(used + 1).to_be_bytes());
}
