// The measurement of an image.
ghost use Rattle.std.specs.Prelude.{◌≡◌, ◌++◌, List, ℕ};
ghost use Rattle.sha2.specs.Hashers.{Holds256};
ghost use Rattle.mon_image.specs.Measurement.{page_part, measurement_of};

use crate::image::Image;
use crate::page::ImagePage;
use sha2::{Digest, Sha256};

// Adds a page to the message.
fn add_page(hasher: &mut Sha256, page: &ImagePage)
    ensures { (m : List ℕ) → Holds256 hasher.old m → Holds256 hasher.new (m ++ page_part page.now) }
{
    hasher.update([page.perms.0]);
    hasher.update(page.bytes.as_slice());
}

impl Image {
    /// SHA-256 of `PLM1`, the entry as 8 bytes and the number of pages as 4 bytes, both little-endian, and then for each page one byte of
    /// permissions and its bytes.
    pub fn measurement(&self) -> [u8; 32]
        ensures { result ≡ measurement_of self.now }
    {
        let pages = self.pages.as_slice();
        let mut hasher = Sha256::new();
        hasher.update(b"PLM1");
        hasher.update(self.entry.to_le_bytes());
        hasher.update((pages.len() as u32).to_le_bytes());
        for page in pages {
            add_page(&mut hasher, page);
        }
        hasher.finalize()
    }
}
