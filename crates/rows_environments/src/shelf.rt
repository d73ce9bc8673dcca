ghost use Rattle.std.specs.Prelude.{◌≡◌, ◌≤◌, true, map, Some, Contains, IfErr, IfOk, IfSome};
ghost use Rattle.std.specs.List.{AllByRecursion};
ghost use Rattle.conda_path.specs.declared.values.Good.{Good};
ghost use Rattle.conda_path.specs.declared.values.Node.{Node};
ghost use Rattle.conda_device.specs.Fault.{Rose};
ghost use Rattle.conda_lane.specs.Changes.{IsOf, at};
ghost use Rattle.conda_lane.specs.Supplies.{IsChanLack};
ghost use Rattle.conda_lane.specs.declared.supply.SupplyErr.{SupplyErr};
ghost use Rattle.rows_environments.specs.Supplies.{file_of};

use crate::checks::has;
use conda_base::{Bytes, Copied, Text};
use conda_checked::{Lack, Lacks};
use conda_dev::{FaultCount, Tree};
use conda_lane::{Given, Supply, SupplyErr};
use conda_path::{Digest, Good, Node, RelPath};
use conda_paths::digest;
use rows_plan::cached;
use std::alloc::{AllocError, Global};

/// How a shelf gives the node of a path that it doesn't keep.
#[derive(Clone, Copy, Debug, PartialEq, Eq)]
enum How {
    /// As it is.
    Plainly,
    /// With a file in the cache that may be linked.
    Linked,
    /// Not at all, since the channel fails.
    ChannelFails,
    /// Not at all, since the cache fails.
    CacheFails,
    /// Not at all for want of memory.
    Memory,
}

/// A path whose node isn't given plainly.
#[derive(Drop)]
struct Exception {
    path: RelPath,
    how: How,
}

/// How often the channel and the cache of a shelf failed, how many files were absent, and how many
/// were others.
#[derive(Clone, Copy, Debug, PartialEq, Eq)]
pub struct Counts {
    pub channel: u64,
    pub cache: u64,
    pub absent: u64,
    pub other: u64,
}

/// What a row lays on a shelf.
#[derive(Drop)]
pub struct Stock {
    goods: Vec<Good>,
    nodes: Tree,
    kept: Tree,
    exceptions: Vec<Exception>,
}

/// A supply of a row. It gives the nodes that lie on it, and fails where the row says so.
#[derive(Drop)]
pub struct Shelf {
    goods: Vec<Good>,
    nodes: Tree,
    kept: Tree,
    exceptions: Vec<Exception>,
    channel: FaultCount,
    cache: FaultCount,
    lacks: Lacks,
    ghost keeps: { (node : Node) (good : Good) → Contains goods.items good
        → at kept good.path ≡ Some node → IsOf good node },
}

/// The good of a node at a path.
pub fn good_of(path: RelPath, node: &Node) -> Good {
    let bytes = node.bytes.as_slice();
    Good {
        path,
        kind: node.kind,
        size: bytes.len() as u64,
        digest: digest(bytes),
    }
}

/// Whether the node is of the good's kind, size and digest.
fn is_of(good: &Good, node: &Node) -> bool
    ensures { result ≡ true → IsOf good.now node.now }
{
    let bytes = node.bytes.as_slice();
    node.kind == good.kind && bytes.len() as u64 == good.size && digest(bytes) == good.digest
}

/// Whether the node is of the good, where this is of the path.
fn fits_one(good: &Good, path: &RelPath, node: &Node) -> bool
    ensures { result ≡ true → good.now.path ≡ path.now → IsOf good.now node.now }
{
    good.path != *path || is_of(good, node)
}

/// Whether the node is of each good of the path.
fn fits(goods: &[Good], path: &RelPath, node: &Node) -> bool
    ensures { result ≡ true →
        AllByRecursion (λ good. good.path ≡ path.now → IsOf good node.now) goods.now }
{
    match goods {
        [] => true,
        [first, rest @ ..] => fits_one(first, path, node) && fits(rest, path, node),
    }
}

/// Whether what is kept for the good's path, if something is, is of the good.
fn is_kept_well(kept: &Tree, good: &Good) -> bool
    ensures { result ≡ true → IfSome (at kept.now good.now.path) (IsOf good.now) }
{
    match kept.get(&good.path) {
        Some(node) => is_of(good, node),
        None => true,
    }
}

/// Whether each kept node is of its path's goods.
fn are_kept_well(kept: &Tree, goods: &[Good]) -> bool
    ensures { result ≡ true →
        AllByRecursion (λ good. IfSome (at kept.now good.path) (IsOf good)) goods.now }
{
    match goods {
        [] => true,
        [first, rest @ ..] => is_kept_well(kept, first) && are_kept_well(kept, rest),
    }
}

/// How a word says that a node is given.
fn how_of(word: &str) -> How {
    match word {
        "linked" => How::Linked,
        "channel" => How::ChannelFails,
        "cache" => How::CacheFails,
        "memory" => How::Memory,
        _ => How::Plainly,
    }
}

/// A node that is given, and the file that may be linked.
fn given(alloc: Global, path: &RelPath, node: &Node, how: How) -> Result<Given, SupplyErr>
    ensures node { IfOk result (λ given. given.node ≡ node.now) }
    ensures memory { IfErr result (λ e. e ≡ SupplyErr.Memory) }
{
    let Ok(node) = node.copy() else {
        return Err(SupplyErr::Memory);
    };
    if how != How::Linked {
        return Ok(Given { node, hard: None });
    }
    match cached(alloc, path) {
        Ok(hard) => Ok(Given { node, hard }),
        Err(_) => Err(SupplyErr::Memory),
    }
}

/// One more, or the last value of the type.
fn one_more(count: u64) -> u64
    ensures later { count ≤ result }
    ensures rose { Rose count result }
{
    count.saturating_add(1)
}

/// What is noted of a good's file, of which this was found.
fn noted(
    alloc: Global,
    goods: &[Good],
    good: &Good,
    found: Option<Digest>,
) -> Result<Lack, SupplyErr>
    ensures lack { IfOk result (λ lack. IsChanLack (map file_of goods.now) 0 lack) }
    ensures found { IfOk result (λ lack. lack.found ≡ found) }
    ensures memory { IfErr result (λ e. e ≡ SupplyErr.Memory) }
{
    if !has(goods, good) {
        return Err(SupplyErr::Memory);
    }
    match Text::from_str(alloc, good.path.as_str()) {
        Ok(path) => Ok(Lack {
            path,
            want: Some((good.size, good.digest)),
            found,
        }),
        Err(_) => Err(SupplyErr::Memory),
    }
}

impl Stock {
    /// Nothing. It takes no memory.
    pub fn new(alloc: Global) -> Stock {
        Stock {
            goods: Vec::new(alloc),
            nodes: Tree::new(alloc),
            kept: Tree::new(alloc),
            exceptions: Vec::new(alloc),
        }
    }

    /// Lays out the node of a good, as a word says: `kept`, `missing`, `damaged` (other bytes),
    /// `linked`, `channel`, `cache` or `memory`.
    pub fn lay(
        &mut self,
        alloc: Global,
        good: Good,
        node: Node,
        word: &str,
    ) -> Result<(), AllocError> {
        let path = good.path.clone()?;
        match word {
            "missing" => {}
            "kept" => self.kept.put(path, node)?,
            "damaged" => {
                let kind = node.kind;
                let bytes = Bytes::from_slice(alloc, b"other")?;
                self.nodes.put(path, Node { kind, bytes })?;
            }
            _ => {
                let how = how_of(word);
                self.exceptions.push(Exception {
                    path: path.clone()?,
                    how,
                })?;
                self.nodes.put(path, node)?;
            }
        }
        self.goods.push(good)?;
        Ok(())
    }
}

impl Shelf {
    ghost use Rattle.std.specs.Prelude.{◌≡◌, None, Some, Contains, IfErr, IfOk, IfSome, IsSome};
    ghost use Rattle.std.specs.List.{AllByRecursion};
    ghost use Rattle.conda_lane.specs.Changes.{IsOf, at};
    ghost use Rattle.conda_lane.specs.Supplies.{HasSupplyCause, IsChanLack, IsGiven, Keeps};
    ghost use Rattle.conda_lane.specs.declared.supply.SupplyErr.{SupplyErr};
    ghost use Rattle.rows_environments.specs.Shelf.{state_of};

    /// A shelf with this stock; None where a kept node isn't of its good.
    pub fn make(stock: Stock) -> Option<Shelf> {
        let Stock {
            goods,
            nodes,
            kept,
            exceptions,
        } = stock;
        if !are_kept_well(&kept, goods.as_slice()) {
            return None;
        }
        Some(Shelf {
            goods,
            nodes,
            kept,
            exceptions,
            channel: FaultCount::new(),
            cache: FaultCount::new(),
            lacks: Lacks {
                absents: 0,
                mismatches: 0,
                last: None,
            },
        })
    }

    /// Its goods.
    pub fn goods(&self) -> &[Good]
        ensures { result.now ≡ (state_of self.now).goods }
    {
        self.goods.as_slice()
    }

    /// What it counted.
    pub fn counts(&self) -> Counts {
        Counts {
            channel: self.channel.count,
            cache: self.cache.count,
            absent: self.lacks.absents,
            other: self.lacks.mismatches,
        }
    }

    fn how(&self, path: &RelPath) -> How {
        for exception in self.exceptions.iter() {
            if exception.path == *path {
                return exception.how;
            }
        }
        How::Plainly
    }

    fn channel_fault(&mut self) -> SupplyErr
        ensures keeps { Keeps (state_of self.old) (state_of self.new) }
        ensures cause { HasSupplyCause result (state_of self.old) (state_of self.new) }
    {
        self.channel.raise();
        SupplyErr::ChanFault
    }

    fn cache_fault(&mut self) -> SupplyErr
        ensures keeps { Keeps (state_of self.old) (state_of self.new) }
        ensures cause { HasSupplyCause result (state_of self.old) (state_of self.new) }
    {
        self.cache.raise();
        SupplyErr::StoreFault
    }

    fn missing(&mut self, lack: Lack) -> SupplyErr
        requires file { IsChanLack (state_of self.old).chan_files 0 lack }
        requires nothing { lack.found ≡ None }
        ensures keeps { Keeps (state_of self.old) (state_of self.new) }
        ensures cause { HasSupplyCause result (state_of self.old) (state_of self.new) }
    {
        self.lacks.absents = one_more(self.lacks.absents);
        self.lacks.last = Some(lack);
        SupplyErr::Missing
    }

    fn damaged(&mut self, lack: Lack) -> SupplyErr
        requires file { IsChanLack (state_of self.old).chan_files 0 lack }
        requires other { IsSome lack.found }
        ensures keeps { Keeps (state_of self.old) (state_of self.new) }
        ensures cause { HasSupplyCause result (state_of self.old) (state_of self.new) }
    {
        self.lacks.mismatches = one_more(self.lacks.mismatches);
        self.lacks.last = Some(lack);
        SupplyErr::Damaged
    }

    /// What is noted of the path's good, of which this was found.
    fn lack(&self, alloc: Global, path: &RelPath, found: Option<Digest>) -> Result<Lack, SupplyErr>
        ensures lack { IfOk result (λ lack. IsChanLack (state_of self.now).chan_files 0 lack) }
        ensures found { IfOk result (λ lack. lack.found ≡ found) }
        ensures memory { IfErr result (λ e. e ≡ SupplyErr.Memory) }
    {
        let goods = self.goods.as_slice();
        for good in goods {
            if good.path == *path {
                return noted(alloc, goods, good, found);
            }
        }
        Err(SupplyErr::Memory)
    }

    /// The node that lies at a path, where it is of the path's goods.
    fn fitting(&self, path: &RelPath) -> Option<&Node>
        ensures { IfSome result (λ node. AllByRecursion
            (λ good. good.path ≡ path.now → IsOf good node.now) self.now.goods.items) }
    {
        match self.nodes.get(path) {
            Some(node) => {
                if fits(self.goods.as_slice(), path, node) {
                    Some(node)
                } else {
                    None
                }
            }
            None => None,
        }
    }

    /// The digest of the node that lies at a path, if one does.
    fn found(&self, path: &RelPath) -> Option<Digest> {
        match self.nodes.get(path) {
            Some(node) => Some(digest(node.bytes.as_slice())),
            None => None,
        }
    }

    /// Gives the node that lies at a path, where it is of the path's goods.
    fn take(&mut self, alloc: Global, path: &RelPath, how: How) -> Result<Given, SupplyErr>
        requires { at self.old.kept path.now ≡ None }
        ensures node { IfOk result (λ given. IsGiven (state_of self.old) path.now given.node) }
        ensures keeps { Keeps (state_of self.old) (state_of self.new) }
        ensures cause { IfErr result
            (λ e. HasSupplyCause e (state_of self.old) (state_of self.new)) }
    {
        if let Some(node) = self.fitting(path) {
            return given(alloc, path, node, how);
        }
        match self.found(path) {
            Some(digest) => {
                let lack = self.lack(alloc, path, Some(digest))?;
                Err(self.damaged(lack))
            }
            None => {
                let lack = self.lack(alloc, path, None)?;
                Err(self.missing(lack))
            }
        }
    }
}

impl Supply for Shelf {
    ghost use Rattle.rows_environments.specs.Shelf.{state_of};

    ghost state = { λ shelf. state_of shelf };

    fn give(&mut self, alloc: Global, path: &RelPath) -> Result<Given, SupplyErr> {
        if let Some(node) = self.kept.get(path) {
            return given(alloc, path, node, How::Plainly);
        }
        let how = self.how(path);
        match how {
            How::ChannelFails => Err(self.channel_fault()),
            How::CacheFails => Err(self.cache_fault()),
            How::Memory => Err(SupplyErr::Memory),
            How::Plainly | How::Linked => self.take(alloc, path, how),
        }
    }

    ghost good = { λ shelf. shelf.keeps };
}
