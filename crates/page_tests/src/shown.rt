use image::Image;
use kinds::StraightNumbers;
use pages::PageAnswer;
use paging::{PageError, page};

// A header with two pointers, and the two buckets that they name: numbers 1 and 2 in block 1, number 80000000h in
// block 2, each with a byte of data.
const HEADER: [u8; 12] = [2, 1, 0, 0, 0, 3, 0, 0, 0, 1, 0, 2];

const LOW: [u8; 28] = [
    3, 1, 0, 2, 0, 0, 0, 0, 0, 16, 0, 6, 0, 22, 0, 6, 4, 0, 0, 0, 1, 7, 4, 0, 0, 0, 2, 8,
];

const HIGH: [u8; 18] = [3, 1, 0, 1, 128, 0, 0, 0, 0, 12, 0, 6, 4, 128, 0, 0, 0, 9];

fn blocks() -> [u8; 1536] {
    let mut bytes = [0; 1536];
    bytes[0..12].copy_from_slice(&HEADER);
    bytes[512..540].copy_from_slice(&LOW);
    bytes[1024..1042].copy_from_slice(&HIGH);
    bytes
}

#[test]
fn a_page_shows_all_records_in_rising_position(rt: HostRuntime) {
    let mut bytes = blocks();
    let device = Image::new(&mut bytes);
    let mut buffer = [238; 64];
    let told = page::<Image<_>, StraightNumbers>(&device, 0, &[], &mut buffer);
    let answer = PageAnswer {
        count: 3,
        used: 34,
        end: true,
    };
    assert!(rt; told == Ok(answer));
    assert_eq!(rt; &buffer[0..4], &[0, 3, 1, 0][..]);
    assert_eq!(rt;
        &buffer[4..16],
        &[0, 16, 0, 6, 0, 22, 0, 6, 0, 28, 0, 6][..]
    );
    assert_eq!(rt; &buffer[16..28], &LOW[16..28]);
    assert_eq!(rt; &buffer[28..34], &HIGH[12..18]);
    assert_eq!(rt; buffer[34], 238);
}

#[test]
fn a_page_goes_on_after_its_bookmark(rt: HostRuntime) {
    let mut bytes = blocks();
    let device = Image::new(&mut bytes);
    let mut buffer = [238; 64];
    let two = PageAnswer {
        count: 2,
        used: 24,
        end: true,
    };
    let one = PageAnswer {
        count: 1,
        used: 14,
        end: true,
    };
    let none = PageAnswer {
        count: 0,
        used: 4,
        end: true,
    };
    assert!(rt;
        page::<Image<_>, StraightNumbers>(&device, 0, &[0, 0, 0, 1], &mut buffer) == Ok(two)
    );
    assert!(rt;
        page::<Image<_>, StraightNumbers>(&device, 0, &[0, 0, 0, 5], &mut buffer) == Ok(one)
    );
    assert_eq!(rt; &buffer[8..14], &HIGH[12..18]);
    assert!(rt; page::<Image<_>, StraightNumbers>(&device, 0, &[255; 4], &mut buffer) == Ok(none));
    assert_eq!(rt; &buffer[0..4], &[0, 0, 1, 0][..]);
}

#[test]
fn a_refusal_leaves_the_buffer(rt: HostRuntime) {
    let mut bytes = blocks();
    let device = Image::new(&mut bytes);
    let mut short = [238; 63];
    let mut buffer = [238; 64];
    assert!(rt;
        page::<Image<_>, StraightNumbers>(&device, 0, &[], &mut short) == Err(PageError::Buffer)
    );
    assert!(rt;
        page::<Image<_>, StraightNumbers>(&device, 0, &[1], &mut short) == Err(PageError::Buffer)
    );
    assert!(rt;
        page::<Image<_>, StraightNumbers>(&device, 0, &[1], &mut buffer) == Err(PageError::Bookmark)
    );
    assert!(rt;
        page::<Image<_>, StraightNumbers>(&device, 1, &[], &mut buffer) == Err(PageError::Broken)
    );
    assert!(rt;
        page::<Image<_>, StraightNumbers>(&device, 9, &[], &mut buffer) == Err(PageError::Broken)
    );
    assert_eq!(rt; short[0], 238);
    assert_eq!(rt; buffer[0], 238);
}
