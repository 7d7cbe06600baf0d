use device::Device;
use header::{Header, decode};
use index::read_block;
use records::bucket_count;
use std::fmt;

// What an index on a device looks like.
#[derive(Clone, Copy)]
pub struct Figure {
    records: u32,
    depth: u8,
    buckets: usize,
    empty: usize,
}

impl fmt::Display for Figure {
    fn fmt<W: fmt::Write>(&self, f: &mut fmt::Formatter<W>) -> fmt::Result {
        let Figure {
            records,
            depth,
            buckets,
            empty,
        } = *self;
        write!(
            f,
            "{records} records, depth {depth}, buckets {buckets}, {empty} of them empty"
        )
    }
}

// Reads an index's header and looks at its buckets, one for each run of slots.
pub fn measure<D: Device>(device: &D, head: u16) -> Option<Figure> {
    let block = read_block(device, head).ok()?;
    let header = decode(&block)?;
    let buckets = (0..128).filter(|slot| is_first(&header, *slot)).count();
    let empty = (0..128)
        .filter(|slot| is_first(&header, *slot) && is_empty(device, &header, *slot))
        .count();
    Some(Figure {
        records: header.count(),
        depth: header.depth(),
        buckets,
        empty,
    })
}

// Whether a slot is the first one of its bucket.
fn is_first(header: &Header, slot: u32) -> bool {
    slot == 0 || header.bucket(slot << 25) != header.bucket((slot - 1) << 25)
}

fn is_empty<D: Device>(device: &D, header: &Header, slot: u32) -> bool {
    read_block(device, header.bucket(slot << 25)).map_or(true, |block| bucket_count(&block) == 0)
}
