// Pages and images that the tests make numbers of.
ghost use Rattle.std.specs.Prelude.{◌≤◌, length};

use mon_image::{Image, ImagePage, ImagePages, PageBytes};
use pl_base::Perms;
use std::alloc::{AllocError, Global};
use std::process::Abort;

/// A page that begins with these bytes and is then zero.
pub(crate) fn page(alloc: Global, perms: Perms, front: &[u8]) -> Result<ImagePage, AllocError>
    requires { length front.now ≤ 4096 }
{
    let mut bytes = vec![in alloc; 0u8; 4096]?;
    bytes[..front.len()].copy_from_slice(front);
    Ok(ImagePage {
        perms,
        bytes: PageBytes::new(bytes),
    })
}

/// An image of zeros: a page for each of `perms`, 1 to 4.
pub(crate) fn image(
    rt: &impl Abort,
    alloc: Global,
    entry: u64,
    perms: &[Perms],
) -> Result<Image, AllocError> {
    assert!(rt; 1 <= perms.len() && perms.len() <= 4);
    let mut pages = Vec::new(alloc);
    for perms in perms {
        pages.push(page(alloc, *perms, b"")?)?;
    }
    assert!(rt; 1 <= pages.len() && pages.len() <= 4);
    Ok(Image {
        entry,
        pages: ImagePages::new(pages),
    })
}
