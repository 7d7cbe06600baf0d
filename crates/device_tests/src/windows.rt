use append_log::{LogBuf, LogMut};
use device::{Device, Refused};
use image::{Image, ImageMut};
use std::test::Fail;
use window::{Span, Window, WindowMut};

#[test]
fn a_window_past_the_end_tells_no_blocks(rt: HostRuntime) {
    let mut bytes = [0; 512 * 4];
    let mut image = Image::new(&mut bytes);
    let past = Window::new(&mut image, Span { start: 2, count: 3 });
    assert_eq!(rt; past.count(), 0);
    let mut buffer = [9; 512];
    assert_eq!(rt; past.read(0, &mut buffer), Err(Refused));
    assert_eq!(rt; buffer[0], 9);
}

#[test]
fn a_window_at_the_end_writes_only_inside(rt: HostRuntime) {
    let mut bytes = [0; 512 * 4];
    {
        let mut image = Image::new(&mut bytes);
        let mut window = Window::new(&mut image, Span { start: 2, count: 2 });
        assert_eq!(rt; window.count(), 2);
        assert_eq!(rt; window.write(1, &[5; 512]), Ok(()));
        assert_eq!(rt; window.write(2, &[5; 512]), Err(Refused));
    }
    assert_eq!(rt;
        [bytes[0], bytes[512], bytes[1024], bytes[1535], bytes[1536]],
        [0, 0, 0, 0, 5]
    );
}

#[test]
fn a_window_over_a_window_over_a_log_appends_one_record(rt: HostRuntime) -> Result<(), Fail> {
    let mut bytes = [0; 6 + 514];
    bytes[5] = 9;
    let log = LogBuf::new(bytes.as_slice().to_vec(rt.alloc())?);
    let outer = Window::new(log, Span { start: 3, count: 6 });
    let mut inner = Window::new(outer, Span { start: 2, count: 4 });
    assert_eq!(rt; inner.write(1, &[8; 512]), Ok(()));
    assert_eq!(rt; inner.allowance(), 0);
    let after = inner.into_device().into_device().into_bytes();
    assert!(rt; after.len() == 520);
    assert_eq!(rt;
        [after[3], after[6], after[7], after[8], after[519]],
        [1, 0, 6, 8, 8]
    );
    Ok(())
}

#[test]
fn what_is_lent_serves_again_after_its_device(rt: HostRuntime) {
    let mut bytes = [0; 6 + 3 * 514];
    bytes[5] = 3;
    let lent = bytes.as_mut_slice();
    {
        let mut log = LogMut::new(lent);
        let device = &mut log;
        {
            let mut window = WindowMut::new(device, Span { start: 0, count: 1 });
            assert_eq!(rt; window.write(0, &[7; 512]), Ok(()));
        }
        let mut window = WindowMut::new(device, Span { start: 1, count: 1 });
        assert_eq!(rt; window.write(0, &[8; 512]), Ok(()));
    }
    {
        let log = LogMut::new(lent);
        assert_eq!(rt; log.allowance(), 1);
    }
    {
        let image = ImageMut::new(lent);
        assert_eq!(rt; image.count(), 3);
    }
    let mut image = ImageMut::new(lent);
    assert_eq!(rt; image.write(0, &[9; 512]), Ok(()));
    assert_eq!(rt;
        [bytes[0], bytes[511], bytes[521], bytes[522]],
        [9, 9, 1, 8]
    );
}
