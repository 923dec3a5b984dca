// An enclave image.
ghost use Rattle.std.specs.Prelude.{◌≡◌, ◌≤◌, length};

use crate::page::ImagePage;
use std::marker::Model;

/// The pages of an image, 1 to 256. Page `i` stands at `0x10000 + 4096·i`.
#[derive(Debug, Drop)]
pub struct ImagePages {
    pages: Vec<ImagePage>,
}

impl Model for ImagePages {
    ghost use Rattle.std.specs.Prelude.{List, ◌≤◌, vec_len};
    ghost use Rattle.mon_image.specs.declared.page.ImagePage.{ImagePage};

    ghost Value = { List ImagePage };

    ghost view = { λ p. p.pages.items };

    ghost invariant = { λ p. (1 ≤ vec_len p.pages) × (vec_len p.pages ≤ 256) };
}

impl ImagePages {
    /// Takes 1 to 256 pages, without memory.
    pub fn new(pages: Vec<ImagePage>) -> ImagePages
        requires some { 1 ≤ length pages.items }
        requires few { length pages.items ≤ 256 }
        ensures { result ≡ pages.items }
    {
        ImagePages { pages }
    }

    pub fn as_slice(&self) -> &[ImagePage]
        ensures pages { result.now ≡ self.now }
        ensures some { 1 ≤ length self.now }
        ensures few { length self.now ≤ 256 }
    {
        self.pages.as_slice()
    }
}

/// An enclave image: where it begins, and its pages.
#[derive(Debug, Drop)]
pub struct Image {
    pub entry: u64,
    pub pages: ImagePages,
}
