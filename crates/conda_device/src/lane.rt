ghost use Rattle.std.specs.Prelude.{◌≡◌, ◌≤◌, ℕ, length, All, Option, option_map};
ghost use Rattle.std.specs.Prelude.{IfOk, IfSome, OnErr, OnOk};
ghost use Rattle.std.specs.FinMap as map;
ghost use Rattle.conda_base.specs.Texts.{Ascending};
ghost use Rattle.conda_device.specs.Fault.{BeforeOrAsked, HasCause, HasDeviceCause};
ghost use Rattle.conda_device.specs.Lanes.{Share, IsInShare, LiesInShare};
ghost use Rattle.conda_device.specs.Seen.{seen_of};
ghost use Rattle.conda_device.specs.Tree.{Tree, CanMove, IsFree, cut_node, moved};
ghost use Rattle.conda_device.specs.Tree.{with_node, without};

use crate::fault::{DeviceErr, Failed};
use conda_base::Copied;
use conda_path::{Kind, Node, RelPath, StorePath};
use std::alloc::{AllocError, Global};

/// What a lane can do: make hard links, make soft links, and keep the executable bit.
#[derive(Clone, Copy, Debug, PartialEq, Eq)]
pub struct Abilities {
    pub hard: bool,
    pub soft: bool,
    pub exec: bool,
}

/// What a look shows of a node: its kind, and the size of its bytes.
#[derive(Clone, Copy, Debug, PartialEq, Eq)]
pub struct Seen {
    pub kind: Kind,
    pub size: u64,
}

/// One share of a prefix's paths: those whose lane, of so many, has its number.
///
/// The paths of each call lie in the share. A call that failed left the tree as it was, or as it
/// was asked to make it.
pub trait Lane: Send + Drop {
    /// Its number, how many lanes share the prefix, and what it can do. They never change.
    ghost share: { Self → Share };
    /// Its tree, where it tells it.
    ghost told: { Self → Option Tree };
    /// The count of faults.
    ghost faults: { Self → ℕ };

    /// How often it failed. The count never falls, and stands still at the last value of its type.
    fn faults(&self) -> u64
        ensures { result ≡ faults self.now };

    /// What it can do. It takes no memory.
    fn abilities(&self) -> Abilities
        ensures { result ≡ (share self.now).abilities };

    /// All paths of its share, ascending by bytes.
    fn paths(&mut self, alloc: Global) -> Result<Vec<RelPath>, DeviceErr>
        ensures paths { IfOk result (λ paths. IfSome (told self.old)
            (λ tree. paths.items ≡ map.keys tree)) }
        ensures ascending { IfOk result (λ paths. Ascending paths.items) }
        ensures inside { IfOk result (λ paths. All (IsInShare (share self.old)) paths.items) }
        ensures cause { HasDeviceCause (faults self.old) (faults self.new) result }
        ensures tree { told self.new ≡ told self.old }
        ensures share { share self.new ≡ share self.old };

    /// What stands at a path, or None where nothing does. It takes no memory.
    fn look(&mut self, path: &RelPath) -> Result<Option<Seen>, Failed>
        requires { IsInShare (share self.old) path.now }
        ensures seen { IfOk result (λ seen. IfSome (told self.old)
            (λ tree. seen ≡ option_map seen_of (map.get tree path.now))) }
        ensures cause { HasCause (faults self.old) (faults self.new) result }
        ensures tree { told self.new ≡ told self.old }
        ensures share { share self.new ≡ share self.old };

    /// The node at a path with at most the first `max` bytes, or None where nothing is there.
    fn read(&mut self, alloc: Global, path: &RelPath, max: u64) -> Result<Option<Node>, DeviceErr>
        requires { IsInShare (share self.old) path.now }
        ensures bound { IfOk result (λ read. IfSome read (λ node. length node.bytes ≤ max)) }
        ensures node { IfOk result (λ read. IfSome (told self.old)
            (λ tree. read ≡ option_map (cut_node max) (map.get tree path.now))) }
        ensures cause { HasDeviceCause (faults self.old) (faults self.new) result }
        ensures tree { told self.new ≡ told self.old }
        ensures share { share self.new ≡ share self.old };

    /// Puts a node at a path where nothing is. A lane that doesn't tell its tree fails and changes
    /// nothing where a node is there.
    fn put(&mut self, path: &RelPath, node: &Node) -> Result<(), Failed>
        requires inside { IsInShare (share self.old) path.now }
        requires free { IsFree (told self.old) path.now }
        ensures ok { OnOk result (told self.new ≡ with_node (told self.old) path.now node.now) }
        ensures err { OnErr result (BeforeOrAsked (told self.old)
            (with_node (told self.old) path.now node.now) (told self.new)) }
        ensures cause { HasCause (faults self.old) (faults self.new) result }
        ensures share { share self.new ≡ share self.old };

    /// As `put`. The node is that of a file in the cache, which the lane may link in its place.
    fn put_hard(&mut self, path: &RelPath, from: &StorePath, node: &Node) -> Result<(), Failed>
        requires inside { IsInShare (share self.old) path.now }
        requires free { IsFree (told self.old) path.now }
        ensures ok { OnOk result (told self.new ≡ with_node (told self.old) path.now node.now) }
        ensures err { OnErr result (BeforeOrAsked (told self.old)
            (with_node (told self.old) path.now node.now) (told self.new)) }
        ensures cause { HasCause (faults self.old) (faults self.new) result }
        ensures share { share self.new ≡ share self.old };

    /// Moves a node to a path where nothing is. A lane that doesn't tell its tree fails and changes
    /// nothing where no node is at `from`, or one is at `to`.
    fn shift(&mut self, from: &RelPath, to: &RelPath) -> Result<(), Failed>
        requires from { IsInShare (share self.old) from.now }
        requires to { IsInShare (share self.old) to.now }
        requires free { CanMove (told self.old) from.now to.now }
        ensures ok { OnOk result (told self.new ≡ moved (told self.old) from.now to.now) }
        ensures err { OnErr result (BeforeOrAsked (told self.old)
            (moved (told self.old) from.now to.now) (told self.new)) }
        ensures cause { HasCause (faults self.old) (faults self.new) result }
        ensures share { share self.new ≡ share self.old };

    /// Takes away what stands at a path. It is Ok also where nothing was.
    fn erase(&mut self, path: &RelPath) -> Result<(), Failed>
        requires { IsInShare (share self.old) path.now }
        ensures ok { OnOk result (told self.new ≡ without (told self.old) path.now) }
        ensures err { OnErr result (BeforeOrAsked (told self.old)
            (without (told self.old) path.now) (told self.new)) }
        ensures cause { HasCause (faults self.old) (faults self.new) result }
        ensures share { share self.new ≡ share self.old };

    /// Puts a node at a path, whatever was there.
    fn replace(&mut self, path: &RelPath, node: &Node) -> Result<(), Failed>
        requires { IsInShare (share self.old) path.now }
        ensures ok { OnOk result (told self.new ≡ with_node (told self.old) path.now node.now) }
        ensures err { OnErr result (BeforeOrAsked (told self.old)
            (with_node (told self.old) path.now node.now) (told self.new)) }
        ensures cause { HasCause (faults self.old) (faults self.new) result }
        ensures share { share self.new ≡ share self.old };

    /// It tells paths of its share alone.
    ghost inside: { (lane : Self) → LiesInShare (told lane) (share lane) };
}

impl Abilities {
    /// It can do all of them.
    pub const ALL: Abilities = Abilities {
        hard: true,
        soft: true,
        exec: true,
    };
}

impl Copied for Abilities {
    fn copy(&self) -> Result<Abilities, AllocError> {
        Ok(*self)
    }
}

impl Copied for Seen {
    fn copy(&self) -> Result<Seen, AllocError> {
        Ok(*self)
    }
}
