ghost use Rattle.std.specs.Prelude.{◌≡◌, List, ℕ, None, Some, IfErr, IfOk, IsErrOf, option_map};
ghost use Rattle.conda_checked.specs.Lacks.{lacks_after, no_lacks, with_absent, with_mismatch};
ghost use Rattle.conda_checked.specs.Lacks.{stored_path};
ghost use Rattle.conda_checked.specs.Reads.{Differs, IfMismatch, IsOfFile};
ghost use Rattle.conda_paths.specs.Listings.{IsListedFile};

use crate::error::CheckErr;
use conda_base::{Copied, Text};
use conda_path::{Digest, RelPath, SlotKey};
use conda_paths::{check, digest};
use std::alloc::{AllocError, Global};

/// A file that was absent, or that had another size or digest.
#[derive(Clone, Debug, PartialEq, Eq, Drop)]
pub struct Lack {
    /// The path that was asked. For a file in the cache it stands after `<key>/`.
    pub path: Text,
    /// The size in bytes and the SHA-256 digest that it was to have, if any were asked for.
    pub want: Option<(u64, Digest)>,
    /// The digest of the bytes that came, or None where nothing did.
    pub found: Option<Digest>,
}

/// The files that a handle lacked.
#[derive(Debug, Drop)]
pub struct Lacks {
    /// How many needed files were absent. The count stands still at the last value of its type.
    pub absents: u64,
    /// How many files had another size or digest. The count stands still like the other.
    pub mismatches: u64,
    /// The last file of both kinds.
    pub last: Option<Lack>,
}

impl Copied for Lack {
    fn copy(&self) -> Result<Lack, AllocError> {
        self.clone()
    }
}

/// The text of a file in a package's folder in the cache.
pub fn stored_text(alloc: Global, key: &SlotKey, path: &RelPath) -> Result<Text, AllocError>
    ensures { IfOk result (λ text. text ≡ stored_path key.now path.now) }
{
    let text = format!(in alloc;
        "{}/{}/{}/{}",
        key.channel.as_str(),
        key.subdir.as_str(),
        key.dist.text(),
        path.as_str()
    )?;
    Ok(Text::from_string(text))
}

impl Lacks {
    /// Nothing was lacked yet. It takes no memory.
    pub(crate) fn new() -> Lacks
        ensures { result ≡ no_lacks }
    {
        Lacks {
            absents: 0,
            mismatches: 0,
            last: None,
        }
    }

    /// Notes that a file was absent. It takes no memory.
    pub(crate) fn absent(&mut self, path: Text, want: Option<(u64, Digest)>) -> CheckErr
        ensures answer { result ≡ CheckErr.Absent }
        ensures noted { self.new ≡ with_absent self.old
            (record { path = path; want = want; found = None }) }
    {
        self.absents = self.absents.saturating_add(1);
        self.last = Some(Lack {
            path,
            want,
            found: None,
        });
        CheckErr::Absent
    }

    /// Notes that a file differed. It takes no memory.
    fn mismatch(&mut self, path: Text, size: u64, want: Digest, found: Digest) -> CheckErr
        ensures answer { result ≡ CheckErr.Mismatch want found }
        ensures noted { self.new ≡ with_mismatch self.old
            (record { path = path; want = Some (size, want); found = Some found }) }
    {
        self.mismatches = self.mismatches.saturating_add(1);
        self.last = Some(Lack {
            path,
            want: Some((size, want)),
            found: Some(found),
        });
        CheckErr::Mismatch { want, found }
    }

    /// What came of a path that was to have this size and digest, where it has both.
    pub(crate) fn checked(
        &mut self,
        path: Text,
        came: Option<Vec<u8>>,
        size: u64,
        want: &Digest,
    ) -> Result<Vec<u8>, CheckErr>
        ensures ok { IfOk result (λ bytes. (came ≡ Some bytes)
            × IsListedFile bytes.items size want.now) }
        ensures absent { IsErrOf result CheckErr.Absent → came ≡ None }
        ensures mismatch { IfErr result (λ e. IfMismatch e (λ wanted found. (bytes : List ℕ)
            × (option_map (λ vec. vec.items) came ≡ Some bytes)
            × Differs bytes size want.now wanted found)) }
        ensures settled { IfErr result IsOfFile }
        ensures lacks { self.new
            ≡ lacks_after path (Some (size, want.now)) self.old result }
    {
        let Some(bytes) = came else {
            return Err(self.absent(path, Some((size, *want))));
        };
        if check(&bytes, size, want) {
            return Ok(bytes);
        }
        Err(self.mismatch(path, size, *want, digest(&bytes)))
    }
}
