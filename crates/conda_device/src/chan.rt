ghost use Rattle.std.specs.Prelude.{◌≡◌, ◌≤◌, ℕ, List, length, Option, option_map};
ghost use Rattle.std.specs.Prelude.{IfOk, IfSome, OnErr, OnOk};
ghost use Rattle.std.specs.FinMap as map;
ghost use Rattle.conda_base.specs.Texts.{Ascending};
ghost use Rattle.conda_device.specs.Channels.{Files, ListsFolders, asked_too, first_bytes};
ghost use Rattle.conda_device.specs.Channels.{shown_of};
ghost use Rattle.conda_device.specs.Fault.{BeforeOrAsked, HasDeviceCause};

use crate::count::Counted;
use crate::fault::DeviceErr;
use conda_base::{Bytes, Copied, Text};
use std::alloc::{AllocError, Global};

/// What a channel shows at a path: a file, executable or not, or a soft link with its target.
#[derive(Clone, Debug, PartialEq, Eq, Drop)]
pub enum Shown {
    File { exec: bool },
    Soft { target: Bytes },
}

/// One handle on a channel. No call changes the channel's files.
pub trait Chan: Counted + Send + Drop {
    /// The channel's files, where it tells them.
    ghost files: { Self → Option Files };
    /// The paths that this handle was asked to read, where it tells them.
    ghost asked: { Self → Option (List (List ℕ)) };

    /// What stands at a path, or None where nothing does.
    fn look(&mut self, alloc: Global, path: &str) -> Result<Option<Shown>, DeviceErr>
        ensures shown { IfOk result (λ shown. IfSome (files self.old)
            (λ all. shown ≡ option_map shown_of (map.get all path.now))) }
        ensures cause { HasDeviceCause (Self.faults self.old) (Self.faults self.new) result }
        ensures files { files self.new ≡ files self.old }
        ensures asked { asked self.new ≡ asked self.old };

    /// At most the first `max` bytes of the file at a path, or None where nothing is there. At a
    /// soft link a channel that tells its files gives None; one that doesn't may give the file to
    /// which the link leads.
    fn read(&mut self, alloc: Global, path: &str, max: u64) -> Result<Option<Vec<u8>>, DeviceErr>
        ensures bound { IfOk result (λ read. IfSome read (λ bytes. length bytes.items ≤ max)) }
        ensures bytes { IfOk result (λ read. IfSome (files self.old)
            (λ all. option_map (λ bytes. bytes.items) read ≡ first_bytes max all path.now)) }
        ensures asked { OnOk result (asked self.new ≡ asked_too (asked self.old) path.now) }
        ensures err { OnErr result (BeforeOrAsked (asked self.old)
            (asked_too (asked self.old) path.now) (asked self.new)) }
        ensures cause { HasDeviceCause (Self.faults self.old) (Self.faults self.new) result }
        ensures files { files self.new ≡ files self.old };

    /// The names of the folders in a subdir that have `info/index.json`, ascending by bytes. There
    /// are none where the subdir is absent.
    fn list(&mut self, alloc: Global, subdir: &str) -> Result<Vec<Text>, DeviceErr>
        ensures names { IfOk result (λ names. IfSome (files self.old)
            (λ all. ListsFolders all subdir.now names.items)) }
        ensures ascending { IfOk result (λ names. Ascending names.items) }
        ensures cause { HasDeviceCause (Self.faults self.old) (Self.faults self.new) result }
        ensures files { files self.new ≡ files self.old }
        ensures asked { asked self.new ≡ asked self.old };
}

impl Copied for Shown {
    fn copy(&self) -> Result<Shown, AllocError> {
        self.clone()
    }
}
