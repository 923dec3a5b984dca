// A page of an image.
ghost use Rattle.std.specs.Prelude.{◌≡◌, ◌<◌, length, All};

use pl_base::Perms;
use std::marker::Model;

/// The 4,096 bytes of a page.
#[derive(Debug, Drop)]
pub struct PageBytes {
    bytes: Vec<u8>,
}

impl Model for PageBytes {
    ghost use Rattle.std.specs.Prelude.{ℕ, List, ◌≡◌, vec_len};

    ghost Value = { List ℕ };

    ghost view = { λ p. p.bytes.items };

    ghost invariant = { λ p. vec_len p.bytes ≡ 4096 };
}

impl PageBytes {
    /// Takes 4,096 bytes, without memory.
    pub fn new(bytes: Vec<u8>) -> PageBytes
        requires { length bytes.items ≡ 4096 }
        ensures { result ≡ bytes.items }
    {
        PageBytes { bytes }
    }

    pub fn as_slice(&self) -> &[u8]
        ensures bytes { result.now ≡ self.now }
        ensures whole { length self.now ≡ 4096 }
        ensures small { All (λ byte. byte < 256) self.now }
    {
        bytes_fit(self.bytes.as_slice());
        self.bytes.as_slice()
    }

    /// The bytes as an array.
    pub fn as_array(&self) -> &[u8; 4096]
        ensures { result.now ≡ self.now }
    {
        self.as_slice().as_array().unwrap()
    }
}

// What the type says of each byte, for the contracts.
fn bytes_fit(bytes: &[u8])
    ensures { All (λ byte. byte < 256) bytes.now }
{}

/// A page of an image: what may be done with it, and its bytes.
#[derive(Debug, Drop)]
pub struct ImagePage {
    pub perms: Perms,
    pub bytes: PageBytes,
}
