// Digest functions of byte strings.
ghost use Rattle.std.specs.Prelude.{◌≡◌, ℕ, List, length};
ghost use Rattle.pl_digest.specs.Digester.{AreBytes};

use sha2::{Digest, Sha256};

/// A digest function on lists of bytes, with digests of 32 bytes.
pub trait Digester: Copy {
    /// The digest of a list of bytes.
    ghost digest_of: { List ℕ → List ℕ };

    /// The digest of the bytes.
    fn digest(bytes: &[u8]) -> [u8; 32]
        ensures { result ≡ digest_of bytes.now };

    /// A digest has 32 elements.
    ghost digest_length: { (message : List ℕ) → length (digest_of message) ≡ 32 };

    /// They are bytes.
    ghost digest_bytes: { (message : List ℕ) → AreBytes (digest_of message) };
}

/// SHA-256 (FIPS 180-4, section 6.2).
#[derive(Clone, Copy, PartialEq, Eq, Debug, Default)]
pub struct Sha;

impl Digester for Sha {
    ghost use Rattle.sha2.specs.Sha256.{sha256};
    ghost use Rattle.sha2.proofs.Facts256.{length-sha256};
    ghost use Rattle.pl_digest.specs.DigestBytes.{sha256_bytes};

    ghost digest_of = { sha256 };

    ghost digest_length = { length-sha256 };

    ghost digest_bytes = { sha256_bytes };

    fn digest(bytes: &[u8]) -> [u8; 32] {
        Sha256::digest(bytes)
    }
}

/// The first byte of SHA-256, and then 31 zero bytes. With it, tests find messages of one digest.
#[derive(Clone, Copy, PartialEq, Eq, Debug, Default)]
pub struct OneByte;

impl Digester for OneByte {
    ghost use Rattle.pl_digest.specs.Digester.{first_byte_of};
    ghost use Rattle.pl_digest.specs.DigestBytes.{length-first_byte_of, first_byte_bytes};

    ghost digest_of = { first_byte_of };

    ghost digest_length = { length-first_byte_of };

    ghost digest_bytes = { first_byte_bytes };

    fn digest(bytes: &[u8]) -> [u8; 32] {
        let whole = Sha256::digest(bytes);
        let mut digest = [0; 32];
        digest[0] = whole[0];
        digest
    }
}
