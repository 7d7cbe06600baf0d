// Builds small indexes of straight numbers on an image, and prints what becomes of them. The records
// have 47 bytes of data each, so that nine of them fill a bucket.
#![tactic(auto)]

mod figure;

use changes::{Change, create, put, remove};
use figure::measure;
use image::ImageBuf;
use index::Fault;
use kinds::StraightNumbers;
use std::alloc::{AllocError, Global};

// The blocks of the image: the header, the first bucket, and spare ones.
const BLOCKS: usize = 16;

const HEAD: u16 = 0;

const FIRST: u16 = 1;

const SPARE: [u16; 7] = [2, 3, 4, 5, 6, 7, 8];

const LAST_KEYS: [u32; 4] = [9, 0x0100_0000, 0x0200_0000, 0x8000_0000];

fn main(rt: HostRuntime) -> anyhow::Result<()> {
    run(&rt)
}

fn run(rt: &HostRuntime) -> anyhow::Result<()> {
    let image = nine(rt.alloc())?;
    print!(rt; "keys 0 to 8: ")?;
    tell(rt, &image)?;
    for key in LAST_KEYS {
        add(rt, key)?;
    }
    Ok(())
}

// An image with an index of the keys 0 to 8.
fn nine(heap: Global) -> Result<ImageBuf, AllocError> {
    let bytes = vec![in heap; 0u8; BLOCKS * 512]?;
    let mut image = ImageBuf::new(bytes);
    let _ = create(&mut image, HEAD, FIRST);
    for key in 0..9u32 {
        let _ = put_key(&mut image, key);
    }
    Ok(image)
}

// Puts one key more into such an index, and takes key 3 out where that is served.
fn add(rt: &HostRuntime, key: u32) -> anyhow::Result<()> {
    let mut image = nine(rt.alloc())?;
    print!(rt; "key {key:08X} besides: ")?;
    match put_key(&mut image, key) {
        Ok(change) => {
            tell_change(rt, change)?;
            tell(rt, &image)?;
        }
        Err(fault) => {
            println!(rt; "{fault}")?;
            print!(rt; "  left as it was: ")?;
            return tell(rt, &image);
        }
    }
    print!(rt; "  key 00000003 then removed: ")?;
    let key = 3u32.to_be_bytes();
    match remove::<ImageBuf, StraightNumbers>(&mut image, HEAD, &key, &SPARE) {
        Ok(removed) => tell_removal(rt, removed, &image),
        Err(fault) => Ok(println!(rt; "{fault}")?),
    }
}

fn tell_removal(rt: &HostRuntime, removed: Option<Change>, image: &ImageBuf) -> anyhow::Result<()> {
    match removed {
        Some(change) => {
            tell_change(rt, change)?;
            tell(rt, image)
        }
        None => Ok(println!(rt; "not there")?),
    }
}

// The length of the key, the key, and 47 bytes of data.
fn put_key(image: &mut ImageBuf, key: u32) -> Result<Change, Fault> {
    let mut bytes = [0u8; 52];
    bytes[0] = 4;
    bytes[1..5].copy_from_slice(&key.to_be_bytes());
    put::<ImageBuf, StraightNumbers>(image, HEAD, &bytes, &SPARE)
}

fn tell_change(rt: &HostRuntime, change: Change) -> anyhow::Result<()> {
    let taken = change.taken;
    let given = change.given.as_slice().len();
    Ok(print!(rt; "{taken} blocks taken, {given} given up; ")?)
}

fn tell(rt: &HostRuntime, image: &ImageBuf) -> anyhow::Result<()> {
    match measure(image, HEAD) {
        Some(figure) => Ok(println!(rt; "{figure}")?),
        None => Ok(println!(rt; "no index")?),
    }
}
