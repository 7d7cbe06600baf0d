// Prints published hashes, and a bucket block that is filled and emptied name by name.
#![tactic(auto)]

mod bucket;

use bucket::ALL;
use buckets::{Whole, build, is_bucket};
use kinds::{ExactNames, KeyKind};
use records::{bucket_count, bucket_key};
use std::io;

const NAMES: [&str; 12] = [
    "", "a", "b", "c", "d", "e", "f", "fo", "foo", "foob", "fooba", "foobar",
];

const NUMBERS: [u32; 4] = [1, 2, 3, u32::MAX];

// Documents b, a and c, with the numbers 2, 3 and 4.
const RECORDS: [[u8; 7]; 3] = [
    [1, 98, 0, 0, 0, 2, 2],
    [1, 97, 0, 0, 0, 3, 2],
    [1, 99, 0, 0, 0, 4, 2],
];

fn main(rt: HostRuntime) -> io::Result<()> {
    print_hashes(&rt)?;
    fill_bucket(&rt)
}

fn print_hashes(rt: &HostRuntime) -> io::Result<()> {
    for name in NAMES {
        let hash = <ExactNames as KeyKind>::hash(name.as_bytes());
        println!(rt; "FNV-1a of \"{name}\": {hash:08X}")?;
    }
    for number in NUMBERS {
        let key = number.to_be_bytes();
        let register = <kinds::RegisterNumbers as KeyKind>::hash(&key);
        let straight = <kinds::StraightNumbers as KeyKind>::hash(&key);
        println!(rt; "number {number}: register {register:08X}, straight {straight:08X}")?;
    }
    Ok(())
}

// Puts three records into an empty bucket, shows it after each, and takes one out again.
fn fill_bucket(rt: &HostRuntime) -> io::Result<()> {
    let mut block = build(ALL, &Whole { block: &[] }).unwrap_or([0; 512]);
    show(rt, "empty", &block)?;
    for record in RECORDS {
        if let Some(after) = bucket::put(&block, &record) {
            block = after;
            show(rt, "put", &block)?;
        }
    }
    let again = bucket::put(&block, &RECORDS[0]);
    println!(rt;
        "put b again: {}",
        if again.is_some() { "done" } else { "refused" }
    )?;
    if let Some(after) = bucket::take(&block, b"a") {
        show(rt, "take a", &after)?;
    }
    block[511] = 1;
    show(rt, "last byte not zero", &block)
}

// Prints the names in a block, whether it is a bucket block, and its first bytes.
fn show(rt: &HostRuntime, step: &str, block: &[u8; 512]) -> io::Result<()> {
    print!(rt; "{step}:")?;
    for key in (0..bucket_count(block)).filter_map(|n| bucket_key(block, n)) {
        for byte in key {
            print!(rt; " {byte:02X}")?;
        }
    }
    let verdict = if is_bucket::<ExactNames>(ALL, block) {
        "a bucket"
    } else {
        "no bucket"
    };
    println!(rt; ", {verdict}")?;
    for byte in &block[..40] {
        print!(rt; "{byte:02X}")?;
    }
    println!(rt; "")
}
