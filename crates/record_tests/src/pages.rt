use records::page_record;
use std::test::Fail;

// Two records, a with number 3 and b with number 2, in a page that says end.
const PAGE: [u8; 26] = [
    0, 2, 1, 0, 0, 12, 0, 7, 0, 19, 0, 7, 1, 97, 0, 0, 0, 3, 2, 1, 98, 0, 0, 0, 2, 2,
];

#[test]
fn a_page_hands_out_its_records_and_no_more(rt: HostRuntime) -> Result<(), Fail> {
    assert_eq!(rt; page_record(&PAGE, 0).ok_or("no record 0")?, &PAGE[12..19]);
    assert_eq!(rt; page_record(&PAGE, 1).ok_or("no record 1")?, &PAGE[19..26]);
    assert!(rt; page_record(&PAGE, 2).is_none());
    Ok(())
}

#[test]
fn what_reaches_past_the_buffer_is_nothing(rt: HostRuntime) {
    assert!(rt; page_record(&PAGE[0..25], 1).is_none());
    assert!(rt; page_record(&PAGE[0..25], 0).is_some());
    assert!(rt; page_record(&PAGE[0..11], 1).is_none());
    assert!(rt; page_record(&PAGE[0..3], 0).is_none());
    assert!(rt; page_record(&[], 0).is_none());
}
