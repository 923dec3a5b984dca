// Known measurements.
use crate::images::page;
use mon_image::{Image, ImagePages};
use pl_base::Perms;
use std::process::Abort;
use std::test::Fail;

// By Python's hashlib.
const ONE_PAGE: [u8; 32] = [
    0x93, 0x4f, 0xe8, 0xe3, 0x87, 0x19, 0x59, 0x07, 0x49, 0x0f, 0x4f, 0xc6, 0x32, 0x58, 0xe8, 0xa8,
    0x9f, 0x4b, 0x7d, 0xe0, 0xac, 0x5a, 0xbe, 0xa7, 0xc1, 0x88, 0x90, 0x72, 0x14, 0xea, 0xf9, 0xa4,
];

const THREE_PAGES: [u8; 32] = [
    0xc3, 0xce, 0x8e, 0x79, 0x12, 0x8e, 0x46, 0x40, 0x07, 0xf9, 0xb9, 0x62, 0x18, 0x8f, 0xc0, 0x0a,
    0x42, 0xed, 0xc5, 0x5b, 0x7e, 0xd9, 0x29, 0xfc, 0xa0, 0x77, 0x69, 0x8f, 0x7a, 0x7a, 0xea, 0x2c,
];

fn measures(rt: &impl Abort, image: &Image, want: [u8; 32]) {
    assert_eq!(rt; image.measurement(), want);
}

#[test]
fn one_page_is_measured(rt: HostRuntime) -> Result<(), Fail> {
    let code = [0x93, 0x08, 0x10, 0, 0x13, 0x05, 0xa0, 0x02, 0x73, 0, 0, 0];
    let only = page(rt.alloc(), Perms(5), &code)?;
    let image = Image {
        entry: 0x10000,
        pages: ImagePages::new(Vec::from_array(rt.alloc(), [only])?),
    };
    measures(&rt, &image, ONE_PAGE);
    Ok(())
}

#[test]
fn three_pages_are_measured(rt: HostRuntime) -> Result<(), Fail> {
    let first = page(rt.alloc(), Perms(5), b"code")?;
    let second = page(rt.alloc(), Perms(3), b"data")?;
    let third = page(rt.alloc(), Perms(1), b"")?;
    let image = Image {
        entry: 0x0123_4567_89ab_cdec,
        pages: ImagePages::new(Vec::from_array(rt.alloc(), [first, second, third])?),
    };
    measures(&rt, &image, THREE_PAGES);
    Ok(())
}
