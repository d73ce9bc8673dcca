ghost use Rattle.std.specs.Prelude.{◌≡◌, ◌≤◌, ℕ, length, Option, option_map};
ghost use Rattle.std.specs.Prelude.{IfOk, IfSome, OnErr, OnOk};
ghost use Rattle.conda_device.specs.Fault.{BeforeOrAsked, HasCause, HasDeviceCause};
ghost use Rattle.conda_device.specs.Stores.{StoreState, erase_of, got_of, mark_of, with_got};
ghost use Rattle.conda_device.specs.Stores.{with_touched, write_of};

use crate::count::Counted;
use crate::fault::{DeviceErr, Failed};
use conda_base::Text;
use conda_path::{RelPath, SlotKey};
use std::alloc::Global;

/// One session's handle on the cache folder. It tells nothing of what the folder holds.
pub trait Store: Counted + Send + Drop {
    /// What this handle was asked to change and what it read last, where it tells that.
    ghost told: { Self → Option StoreState };

    /// The texts `<channel>/<subdir>/<dist>` of the folders that have the mark `.ready`. Their
    /// reader passes over a text that isn't of this form, and takes equal ones once.
    fn list(&mut self, alloc: Global) -> Result<Vec<Text>, DeviceErr>
        ensures told { told self.new ≡ told self.old }
        ensures cause { HasDeviceCause (Self.faults self.old) (Self.faults self.new) result };

    /// At most the first `max` bytes of a file in a package's folder, or None where nothing is
    /// there.
    fn read(
        &mut self,
        alloc: Global,
        key: &SlotKey,
        path: &RelPath,
        max: u64,
    ) -> Result<Option<Vec<u8>>, DeviceErr>
        ensures bound { IfOk result (λ read. IfSome read (λ bytes. length bytes.items ≤ max)) }
        ensures got { IfOk result (λ read. told self.new
            ≡ with_got (told self.old) (got_of key.now path.now max (option_map (λ bytes. bytes.items) read))) }
        ensures err { OnErr result (told self.new ≡ told self.old) }
        ensures cause { HasDeviceCause (Self.faults self.old) (Self.faults self.new) result };

    /// Puts a file in a package's folder, or replaces it.
    fn write(
        &mut self,
        key: &SlotKey,
        path: &RelPath,
        bytes: &[u8],
        exec: bool,
    ) -> Result<(), Failed>
        ensures ok { OnOk result (told self.new
            ≡ with_touched (told self.old) (write_of key.now path.now bytes.now)) }
        ensures err { OnErr result (BeforeOrAsked (told self.old)
            (with_touched (told self.old) (write_of key.now path.now bytes.now)) (told self.new)) }
        ensures cause { HasCause (Self.faults self.old) (Self.faults self.new) result };

    /// Gives a package's folder the mark `.ready`.
    fn mark(&mut self, key: &SlotKey) -> Result<(), Failed>
        ensures ok { OnOk result
            (told self.new ≡ with_touched (told self.old) (mark_of key.now)) }
        ensures err { OnErr result (BeforeOrAsked (told self.old)
            (with_touched (told self.old) (mark_of key.now)) (told self.new)) }
        ensures cause { HasCause (Self.faults self.old) (Self.faults self.new) result };

    /// Takes a package's folder away, its mark first. It is Ok also where there is none.
    fn erase(&mut self, key: &SlotKey) -> Result<(), Failed>
        ensures ok { OnOk result
            (told self.new ≡ with_touched (told self.old) (erase_of key.now)) }
        ensures err { OnErr result (BeforeOrAsked (told self.old)
            (with_touched (told self.old) (erase_of key.now)) (told self.new)) }
        ensures cause { HasCause (Self.faults self.old) (Self.faults self.new) result };
}
