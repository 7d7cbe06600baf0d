// Prints the shape of indexes of straight numbers, whose records have 47 bytes of data each.
#![tactic(auto)]

use kinds::KeyKind;
use shape::{Row, forecast};
use std::{array, io};

// The pair, the length of the key, the key, and the data.
const WEIGHT: u16 = 4 + 1 + 4 + 47;

const LAST_KEYS: [u32; 4] = [9, 0x01000000, 0x02000000, 0x80000000];

fn main(rt: HostRuntime) -> io::Result<()> {
    print!(&rt; "keys 0 to 8: ")?;
    tell(&rt, &nine())?;
    for key in LAST_KEYS {
        print!(&rt; "key {key:08X} besides: ")?;
        tell(&rt, &ten(key))?;
    }
    let mut without = nine();
    without[3] = row(0x80000000);
    print!(&rt; "key 00000003 then removed: ")?;
    tell(&rt, &without)
}

fn row(number: u32) -> Row {
    Row {
        hash: <kinds::StraightNumbers as KeyKind>::hash(&number.to_be_bytes()),
        weight: WEIGHT,
    }
}

// The rows of the keys 0 to 8.
fn nine() -> [Row; 9] {
    array::from_fn(|key| row(key as u32))
}

// The same, and one more.
fn ten(last: u32) -> [Row; 10] {
    let mut rows = [row(last); 10];
    rows[..9].copy_from_slice(&nine());
    rows
}

fn tell(rt: &HostRuntime, rows: &[Row]) -> io::Result<()> {
    match forecast(rows) {
        Some(shape) => println!(rt; "buckets {}, depth {}", shape.buckets, shape.depth),
        None => println!(rt; "refused 15, a prefix of 7 bits is too heavy"),
    }
}
