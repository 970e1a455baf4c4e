//! Digests of sources.
ghost use Rattle.std.specs.Prelude.{◌≡◌};
ghost use Rattle.sha2.specs.Sha256.{sha256};

use sha2::{Digest, Sha256};

/// The SHA-256 digest of a source (FIPS 180-4).
pub fn digest_of(source: &[u8]) -> [u8; 32]
    ensures { result ≡ sha256 source.now }
{
    Sha256::digest(source)
}
