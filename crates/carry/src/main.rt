// carry LOG IMAGE: carries the volume of a log file onto an image file.
#![tactic(auto)]

mod carried;
mod carrying;
mod error;

use append_log::{Head, LogBuf};
use carried::Carried;
use carrying::carry;
use device::Device;
use error::CarryError;
use image::ImageBuf;
use std::process::ExitCode;
use std::{env, fs, io};

fn main(rt: HostRuntime) -> ExitCode {
    match run(&rt) {
        Ok(()) => ExitCode::SUCCESS,
        Err(error) => {
            let _ = eprintln!(rt; "carry: {error}");
            ExitCode::FAILURE
        }
    }
}

fn run(rt: &HostRuntime) -> anyhow::Result<()> {
    let mut args = env::args(rt)?.skip(1);
    let (Some(log_path), Some(image_path)) = (args.next(), args.next()) else {
        return Err(CarryError::Usage.into());
    };
    carry_files(rt, log_path.as_str(), image_path.as_str())
}

// Reads both files, and writes the image again where a block of it changed.
fn carry_files(rt: &HostRuntime, log_path: &str, image_path: &str) -> anyhow::Result<()> {
    let log = LogBuf::new(fs::read(rt, log_path)?);
    let head = log.head().ok_or(CarryError::InvalidLog)?;
    tell_log(rt, log_path, head, log.allowance())?;
    let image = ImageBuf::new(fs::read(rt, image_path)?);
    println!(rt; "{image_path}: {} blocks", image.count())?;
    let carried = carry(rt.alloc(), &log, image).map_err(CarryError::from)?;
    finish(rt, image_path, head, carried)
}

fn tell_log(rt: &HostRuntime, path: &str, head: Head, room: u32) -> io::Result<()> {
    let Head { used, count } = head;
    println!(rt; "{path}: {count} blocks, {used} records used, room for {room} more")
}

// Tells each block that was written, and stores the image.
fn finish(rt: &HostRuntime, path: &str, head: Head, carried: Carried) -> anyhow::Result<()> {
    let Carried { image, written } = carried;
    for block in &written {
        println!(rt; "block {block} differs: written")?;
    }
    if !written.is_empty() {
        fs::write(rt, path, image.into_bytes().as_slice())?;
    }
    let equal = usize::from(head.count).saturating_sub(written.len());
    println!(rt; "{} blocks written, {equal} equal already", written.len())?;
    Ok(())
}
