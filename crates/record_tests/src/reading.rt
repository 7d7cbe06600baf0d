use buckets::{Inserted, Prefix, Whole, build};
use kinds::StraightNumbers;
use records::{find, place_for, read_record};
use std::test::Fail;

const ALL: Prefix = Prefix { bits: 0, top: 0 };

#[test]
fn a_record_has_a_key_that_ends_within_it(rt: HostRuntime) -> Result<(), Fail> {
    let parts = read_record(&[2, 97, 98, 9]).ok_or("no record")?;
    assert_eq!(rt; parts.key, &[97, 98][..]);
    assert_eq!(rt; parts.data, &[9][..]);
    assert!(rt; read_record(&[1, 97]).is_some());
    assert!(rt; read_record(&[0, 97]).is_none());
    assert!(rt; read_record(&[2, 97]).is_none());
    assert!(rt; read_record(&[1]).is_none());
    assert!(rt; read_record(&[1; 53]).is_none());
    Ok(())
}

// The block with a record of 52 bytes put in under the number n.
fn put_heavy(block: &[u8; 512], n: u8) -> Option<[u8; 512]> {
    let mut record = [0; 52];
    record[0] = 4;
    record[4] = n;
    let place = place_for::<StraightNumbers>(block, &[0, 0, 0, n]);
    build(
        ALL,
        &Inserted {
            block,
            place,
            record: &record,
        },
    )
}

#[test]
fn nine_heavy_records_fill_a_bucket_and_a_tenth_does_not_fit(rt: HostRuntime) -> Result<(), Fail> {
    let mut block = build(ALL, &Whole { block: &[] }).ok_or("no empty bucket")?;
    for n in 0..9 {
        block = put_heavy(&block, n).ok_or("too heavy")?;
    }
    assert!(rt; put_heavy(&block, 9).is_none());
    let full = &block;
    assert_eq!(rt; find::<StraightNumbers>(full, &[0, 0, 0, 8]), Some(8));
    assert_eq!(rt; find::<StraightNumbers>(full, &[0, 0, 0, 9]), None);
    Ok(())
}
