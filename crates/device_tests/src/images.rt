use device::{Device, Refused};
use image::Image;

#[test]
fn a_partial_last_block_is_no_block_and_stays(rt: HostRuntime) {
    let mut bytes = [7; 1024 + 100];
    {
        let mut image = Image::new(&mut bytes);
        assert_eq!(rt; image.count(), 2);
        assert_eq!(rt; image.write(2, &[1; 512]), Err(Refused));
        assert_eq!(rt; image.write(1, &[1; 512]), Ok(()));
        assert_eq!(rt; image.allowance(), u32::MAX);
    }
    assert_eq!(rt;
        [
            bytes[511],
            bytes[512],
            bytes[1023],
            bytes[1024],
            bytes[1123],
        ],
        [7, 1, 1, 7, 7]
    );
}

#[test]
fn a_refused_read_leaves_the_buffer(rt: HostRuntime) {
    let mut bytes = [7; 512];
    let image = Image::new(&mut bytes);
    let mut short = [9; 511];
    assert_eq!(rt; image.read(0, &mut short), Err(Refused));
    assert_eq!(rt; short[0], 9);
    let mut buffer = [9; 512];
    assert_eq!(rt; image.read(1, &mut buffer), Err(Refused));
    assert_eq!(rt; buffer[511], 9);
    assert_eq!(rt; image.read(0, &mut buffer), Ok(()));
    assert_eq!(rt; buffer[511], 7);
}
