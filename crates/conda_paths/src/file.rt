ghost use Rattle.std.specs.Prelude.{◌≡◌, ◌↔◌, IsTrue, length};
ghost use Rattle.sha2.specs.Sha256.{sha256};
ghost use Rattle.conda_paths.specs.Listings.{IsListedFile};

use conda_path::Digest;
use sha2::{Digest as _, Sha256};

/// The SHA-256 digest of bytes (FIPS 180-4). It takes no memory.
pub fn digest(bytes: &[u8]) -> Digest
    ensures { result.bytes ≡ sha256 bytes.now }
{
    Digest {
        bytes: Sha256::digest(bytes),
    }
}

/// Whether a file's bytes have the listed size and digest. It takes no memory.
pub fn check(bytes: &[u8], size: u64, wanted: &Digest) -> bool
    ensures { IsTrue result ↔ IsListedFile bytes.now size wanted.now }
{
    bytes.len() as u64 == size && digest(bytes) == *wanted
}
