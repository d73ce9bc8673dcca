ghost use Rattle.std.specs.Prelude.{◌≡◌, ◌≤◌, ℕ, List, length, None, Some, option_map};
ghost use Rattle.std.specs.Prelude.{IfErr, IfOk, IfSome, IsErrOf, OnErr, OnOk};
ghost use Rattle.std.specs.FinMap as map;
ghost use Rattle.conda_checked.specs.Lacks.{lacks_after, lacks_of};
ghost use Rattle.conda_checked.specs.Reads.{Differs, HasCheckCause, IfMismatch, IsNoMismatch};
ghost use Rattle.conda_checked.specs.Reads.{read_limit};
ghost use Rattle.conda_device.specs.Channels.{asked_too, first_bytes, shown_of};
ghost use Rattle.conda_device.specs.Fault.{BeforeOrAsked, HasDeviceCause};
ghost use Rattle.conda_paths.specs.Listings.{IsListedFile};

use crate::checked::Checked;
use crate::error::CheckErr;
use conda_base::Text;
use conda_device::{Chan, DeviceErr, Shown};
use conda_path::Digest;
use std::alloc::Global;

impl<C: Chan> Checked<C> {
    /// At most the first `max` bytes of a file that has to be there.
    pub fn need(&mut self, alloc: Global, path: &str, max: u64) -> Result<Vec<u8>, CheckErr>
        ensures bound { IfOk result (λ bytes. length bytes.items ≤ max) }

        // where the channel tells its files
        ensures ok { IfOk result (λ bytes. IfSome (C.files self.old.inner)
            (λ all. first_bytes max all path.now ≡ Some bytes.items)) }
        ensures absent { IsErrOf result CheckErr.Absent → IfSome (C.files self.old.inner)
            (λ all. first_bytes max all path.now ≡ None) }

        ensures no_mismatch { IfErr result IsNoMismatch }
        ensures cause { HasCheckCause (C.faults self.old.inner) (C.faults self.new.inner) result }
        ensures lacks { lacks_of self.new
            ≡ lacks_after path.now None (lacks_of self.old) result }
        ensures files { C.files self.new.inner ≡ C.files self.old.inner }
        ensures asked { OnOk result
            (C.asked self.new.inner ≡ asked_too (C.asked self.old.inner) path.now) }
        ensures err_asked { OnErr result (BeforeOrAsked (C.asked self.old.inner)
            (asked_too (C.asked self.old.inner) path.now) (C.asked self.new.inner)) }
    {
        let lacked = Text::from_str(alloc, path)?;
        match self.inner.read(alloc, path, max)? {
            Some(bytes) => Ok(bytes),
            None => Err(self.lacks.absent(lacked, None)),
        }
    }

    /// At most the first `max` bytes of a file that may be absent, or None where it is. No count of
    /// absent files rises.
    pub fn maybe(
        &mut self,
        alloc: Global,
        path: &str,
        max: u64,
    ) -> Result<Option<Vec<u8>>, DeviceErr>
        ensures bound { IfOk result (λ read. IfSome read (λ bytes. length bytes.items ≤ max)) }
        ensures bytes { IfOk result (λ read. IfSome (C.files self.old.inner)
            (λ all. option_map (λ bytes. bytes.items) read ≡ first_bytes max all path.now)) }
        ensures cause { HasDeviceCause (C.faults self.old.inner) (C.faults self.new.inner) result }
        ensures lacks { lacks_of self.new ≡ lacks_of self.old }
        ensures files { C.files self.new.inner ≡ C.files self.old.inner }
        ensures asked { OnOk result
            (C.asked self.new.inner ≡ asked_too (C.asked self.old.inner) path.now) }
        ensures err_asked { OnErr result (BeforeOrAsked (C.asked self.old.inner)
            (asked_too (C.asked self.old.inner) path.now) (C.asked self.new.inner)) }
    {
        self.inner.read(alloc, path, max)
    }

    /// What the channel shows at a path at which something has to be.
    pub fn shown(&mut self, alloc: Global, path: &str) -> Result<Shown, CheckErr>
        // where the channel tells its files
        ensures ok { IfOk result (λ shown. IfSome (C.files self.old.inner)
            (λ all. option_map shown_of (map.get all path.now) ≡ Some shown)) }
        ensures absent { IsErrOf result CheckErr.Absent → IfSome (C.files self.old.inner)
            (λ all. map.get all path.now ≡ None) }

        ensures no_mismatch { IfErr result IsNoMismatch }
        ensures cause { HasCheckCause (C.faults self.old.inner) (C.faults self.new.inner) result }
        ensures lacks { lacks_of self.new
            ≡ lacks_after path.now None (lacks_of self.old) result }
        ensures files { C.files self.new.inner ≡ C.files self.old.inner }
        ensures asked { C.asked self.new.inner ≡ C.asked self.old.inner }
    {
        let lacked = Text::from_str(alloc, path)?;
        match self.inner.look(alloc, path)? {
            Some(shown) => Ok(shown),
            None => Err(self.lacks.absent(lacked, None)),
        }
    }

    /// The bytes of a file that has to be there with this size and SHA-256 digest.
    pub fn good(
        &mut self,
        alloc: Global,
        path: &str,
        size: u64,
        digest: &Digest,
    ) -> Result<Vec<u8>, CheckErr>
        ensures good { IfOk result (λ bytes. IsListedFile bytes.items size digest.now) }
        ensures mismatch { IfErr result (λ e. IfMismatch e (λ want found.
            (came : List ℕ) × Differs came size digest.now want found
            × IfSome (C.files self.old.inner)
            (λ all. first_bytes (read_limit size) all path.now ≡ Some came))) }

        // where the channel tells its files
        ensures ok { IfOk result (λ bytes. IfSome (C.files self.old.inner)
            (λ all. first_bytes (read_limit size) all path.now ≡ Some bytes.items)) }
        ensures absent { IsErrOf result CheckErr.Absent → IfSome (C.files self.old.inner)
            (λ all. first_bytes (read_limit size) all path.now ≡ None) }

        ensures cause { HasCheckCause (C.faults self.old.inner) (C.faults self.new.inner) result }
        ensures lacks { lacks_of self.new
            ≡ lacks_after path.now (Some (size, digest.now)) (lacks_of self.old) result }
        ensures files { C.files self.new.inner ≡ C.files self.old.inner }
        ensures asked { OnOk result
            (C.asked self.new.inner ≡ asked_too (C.asked self.old.inner) path.now) }
        ensures err_asked { OnErr result (BeforeOrAsked (C.asked self.old.inner)
            (asked_too (C.asked self.old.inner) path.now) (C.asked self.new.inner)) }
    {
        let lacked = Text::from_str(alloc, path)?;
        let came = self.inner.read(alloc, path, size.saturating_add(1))?;
        self.lacks.checked(lacked, came, size, digest)
    }
}
