use append_log::LogBuf;
use copying::{CopyError, copy_blocks};
use image::ImageBuf;
use std::test::Fail;

#[test]
fn a_smaller_target_is_left_alone(rt: HostRuntime) -> Result<(), Fail> {
    let source = ImageBuf::new(vec![in rt.alloc(); 1; 1024]?);
    let mut target = ImageBuf::new(vec![in rt.alloc(); 2; 1023]?);
    assert_eq!(rt;
        copy_blocks(rt.alloc(), &source, &mut target).err(),
        Some(CopyError::TooSmall)
    );
    let bytes = target.into_bytes();
    assert!(rt; bytes.len() == 1023);
    assert_eq!(rt; bytes[0], 2);
    Ok(())
}

#[test]
fn a_full_log_takes_no_block_that_differs(rt: HostRuntime) -> Result<(), Fail> {
    let source = ImageBuf::new(vec![in rt.alloc(); 1; 512]?);
    let mut head = vec![in rt.alloc(); 0; 6]?;
    assert!(rt; head.len() == 6);
    head[5] = 1;
    let mut target = LogBuf::new(head);
    assert_eq!(rt;
        copy_blocks(rt.alloc(), &source, &mut target).err(),
        Some(CopyError::Worn)
    );
    Ok(())
}
