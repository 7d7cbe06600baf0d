ghost use Rattle.std.specs.Prelude.{◌≡◌, true, false, MatchOption};
ghost use Rattle.records.specs.Records.{is_record, key_of, data_of};

// The bytes of a record at most.
pub const MAX_RECORD: usize = 52;

// A record's key and data.
#[derive(Clone, Copy)]
pub struct Record<'a> {
    pub key: &'a [u8],
    pub data: &'a [u8],
}

// Takes a record apart: first byte and rest, then key and data.
pub fn read_record(bytes: &[u8]) -> Option<Record<'_>>
    ensures { MatchOption result (is_record bytes.now ≡ false) (λ parts. (is_record bytes.now ≡ true) × (parts.key.now ≡ key_of bytes.now) × (parts.data.now ≡ data_of bytes.now)) }
{
    if bytes.len() > MAX_RECORD {
        return None;
    }
    let (first, rest) = bytes.split_first()?;
    let len = usize::from(*first);
    if len == 0 {
        return None;
    }
    let (key, data) = rest.split_at_checked(len)?;
    Some(Record { key, data })
}
