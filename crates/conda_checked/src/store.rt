ghost use Rattle.std.specs.Prelude.{◌≡◌, ℕ, List, None, Some};
ghost use Rattle.std.specs.Prelude.{IfErr, IfOk, IsErrOf, OnOk};
ghost use Rattle.conda_checked.specs.Lacks.{lacks_after, lacks_of, stored_path};
ghost use Rattle.conda_checked.specs.Reads.{Differs, GotOther, HasCheckCause, IfMismatch};
ghost use Rattle.conda_checked.specs.Reads.{IfUnread, check_of};
ghost use Rattle.conda_device.specs.Stores.{with_got};
ghost use Rattle.conda_paths.specs.Listings.{IsListedFile};

use crate::checked::Checked;
use crate::error::CheckErr;
use crate::lack::stored_text;
use conda_device::Store;
use conda_path::{Digest, RelPath, SlotKey};
use std::alloc::Global;

impl<S: Store> Checked<S> {
    /// The bytes of a file in a package's folder that has to be there with this size and SHA-256
    /// digest.
    pub fn good_at(
        &mut self,
        alloc: Global,
        key: &SlotKey,
        path: &RelPath,
        size: u64,
        digest: &Digest,
    ) -> Result<Vec<u8>, CheckErr>
        ensures good { IfOk result (λ bytes. IsListedFile bytes.items size digest.now) }
        ensures mismatch { IfErr result (λ e. IfMismatch e (λ want found.
            (came : List ℕ) × Differs came size digest.now want found)) }

        // what the store tells of its last read
        ensures got { OnOk result (S.told self.new.inner ≡ with_got (S.told self.old.inner)
            (check_of key.now path.now size (Some (size, digest.now)))) }
        ensures got_none { IsErrOf result CheckErr.Absent →
            S.told self.new.inner ≡ with_got (S.told self.old.inner)
            (check_of key.now path.now size None) }
        ensures got_other { IfErr result (λ e. IfMismatch e (λ want found.
            GotOther key.now path.now size digest.now found
            (S.told self.old.inner) (S.told self.new.inner))) }
        ensures unread { IfErr result (λ e. IfUnread e
            (S.told self.new.inner ≡ S.told self.old.inner)) }

        ensures cause { HasCheckCause (S.faults self.old.inner) (S.faults self.new.inner) result }
        ensures lacks { lacks_of self.new ≡ lacks_after (stored_path key.now path.now)
            (Some (size, digest.now)) (lacks_of self.old) result }
    {
        let lacked = stored_text(alloc, key, path)?;
        let came = self.inner.read(alloc, key, path, size.saturating_add(1))?;
        self.lacks.checked(lacked, came, size, digest)
    }
}
