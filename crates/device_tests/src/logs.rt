use append_log::{Head, Log};
use device::{Device, Refused};

#[test]
fn no_bytes_and_a_short_head_are_no_log(rt: HostRuntime) {
    let mut none = [0; 0];
    assert!(rt; Log::new(&mut none).head().is_none());
    let mut short = [0, 0, 0, 0, 0];
    let log = Log::new(&mut short);
    assert!(rt; log.head().is_none());
    assert_eq!(rt; log.count(), 0);
    assert_eq!(rt; log.allowance(), 0);
}

#[test]
fn a_head_alone_is_a_log_of_zeros_without_room(rt: HostRuntime) {
    let mut bytes = [0, 0, 0, 0, 0, 3];
    let mut log = Log::new(&mut bytes);
    assert_eq!(rt; log.count(), 3);
    assert_eq!(rt; log.allowance(), 0);
    let mut buffer = [9; 512];
    assert_eq!(rt; log.read(2, &mut buffer), Ok(()));
    assert_eq!(rt; buffer[0], 0);
    assert_eq!(rt; log.write(2, &[1; 512]), Err(Refused));
}

#[test]
fn a_used_record_out_of_range_spoils_the_log(rt: HostRuntime) {
    let mut bytes = [0; 6 + 514];
    bytes[3] = 1;
    bytes[5] = 2;
    bytes[7] = 2;
    let log = Log::new(&mut bytes);
    assert_eq!(rt; log.count(), 0);
    assert_eq!(rt; log.allowance(), 0);
}

#[test]
fn used_records_that_reach_past_the_end_spoil_the_log(rt: HostRuntime) {
    let mut bytes = [0; 6 + 513];
    bytes[3] = 1;
    bytes[5] = 2;
    assert!(rt; Log::new(&mut bytes).head().is_none());
}

#[test]
fn the_newest_record_counts_until_the_log_is_full(rt: HostRuntime) {
    let mut bytes = [0; 6 + 514 * 2 + 513];
    bytes[5] = 4;
    let mut log = Log::new(&mut bytes);
    assert_eq!(rt; log.allowance(), 2);
    assert_eq!(rt; log.write(3, &[1; 512]), Ok(()));
    assert_eq!(rt; log.write(3, &[2; 512]), Ok(()));
    assert_eq!(rt; log.allowance(), 0);
    assert_eq!(rt; log.write(3, &[3; 512]), Err(Refused));
    let mut buffer = [0; 512];
    assert_eq!(rt; log.read(3, &mut buffer), Ok(()));
    assert_eq!(rt; buffer[0], 2);
    assert_eq!(rt; log.head(), Some(Head { used: 2, count: 4 }));
}
