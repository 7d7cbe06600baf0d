// Devices over one another: what a write through a window does to the device below it.
#![tactic(auto)]

ghost use Rattle.std.specs.Prelude.{◌≡◌, ◌+◌, ◌≤◌, is_ok, if◌then◌else◌, slice_set};
ghost use Rattle.device.specs.Access.{writable};
ghost use Rattle.append_log.specs.Records.{log_blocks, log_room, OnlyAppends};
ghost use Rattle.window.specs.View.{view};

use append_log::Log;
use device::{Device, Refused};
use window::{Span, Window};

// Writes a block of a window over any device.
pub fn write_within<D: Device>(
    device: &mut D,
    span: Span,
    block: u32,
    source: &[u8],
) -> Result<(), Refused>
    ensures served { is_ok result ≡ writable (view (D.Device.contents device.old) span) block source.now (D.Device.allowed device.old) }
    ensures sets { D.Device.contents device.new ≡ (if is_ok result then slice_set (D.Device.contents device.old) (span.start + block) source.now else D.Device.contents device.old) }
    ensures keeps { D.Device.kept device.old device.new }
    ensures costs { D.Device.allowed device.old ≤ D.Device.allowed device.new + (if is_ok result then 1 else 0) }
    ensures falls { D.Device.allowed device.new ≤ D.Device.allowed device.old }
{
    let mut window = Window::new(device, span);
    window.write(block, source)
}

// Writes a block of a window that lies over another one.
pub fn write_within_both<D: Device>(
    device: &mut D,
    outer: Span,
    inner: Span,
    block: u32,
    source: &[u8],
) -> Result<(), Refused>
    ensures served { is_ok result ≡ writable (view (view (D.Device.contents device.old) outer) inner) block source.now (D.Device.allowed device.old) }
    ensures sets { D.Device.contents device.new ≡ (if is_ok result then slice_set (D.Device.contents device.old) (outer.start + (inner.start + block)) source.now else D.Device.contents device.old) }
    ensures keeps { D.Device.kept device.old device.new }
    ensures costs { D.Device.allowed device.old ≤ D.Device.allowed device.new + (if is_ok result then 1 else 0) }
    ensures falls { D.Device.allowed device.new ≤ D.Device.allowed device.old }
{
    let mut window = Window::new(device, outer);
    write_within(&mut window, inner, block, source)
}

// Writes a block of a window over a log in the caller's bytes.
pub fn append_within(bytes: &mut [u8], span: Span, block: u32, source: &[u8]) -> Result<(), Refused>
    ensures served { is_ok result ≡ writable (view (log_blocks bytes.old) span) block source.now (log_room bytes.old) }
    ensures sets { log_blocks bytes.new ≡ (if is_ok result then slice_set (log_blocks bytes.old) (span.start + block) source.now else log_blocks bytes.old) }
    ensures keeps { OnlyAppends bytes.old bytes.new }
{
    let mut log = Log::new(bytes);
    write_within(&mut log, span, block, source)
}
