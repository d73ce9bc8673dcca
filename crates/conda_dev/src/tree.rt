ghost use Rattle.std.specs.Prelude.{◌≡◌, ◌≤◌, ℕ, List, is_some, None, IfOk, OnOk, OnErr};
ghost use Rattle.conda_device.specs.Tree.{move};
ghost use Rattle.std.specs.FinMap as map;
ghost use Rattle.std.specs.Option.{option_copied};
ghost use Rattle.conda_dev.specs.Shares.{first_of, in_share};

use conda_base::Copied;
use conda_path::{Node, RelPath, lane_of};
use std::alloc::{AllocError, Global};
use std::collections::BTreeMap;
use std::marker::Model;

/// Paths and their nodes, ascending by path.
#[derive(Clone, Debug, Drop)]
pub struct Tree {
    nodes: BTreeMap<RelPath, Node>,
}

impl Model for Tree {
    ghost use Rattle.std.specs.FinMap as map;
    ghost use Rattle.conda_device.specs.Tree as tree;

    ghost Value = { tree.Tree };

    ghost coded = { tree.coded_tree };

    ghost view = { λ t. map.from_entries t.nodes.entries };
}

impl Tree {
    /// No paths. It takes no memory.
    pub fn new(alloc: Global) -> Tree
        ensures { result ≡ map.empty }
    {
        Tree {
            nodes: BTreeMap::new(alloc),
        }
    }

    /// The node at a path. It takes no memory.
    pub fn get(&self, path: &RelPath) -> Option<&Node>
        ensures { option_copied result ≡ map.get self.now path.now }
    {
        self.nodes.get(path)
    }

    /// Whether a node is at a path. It takes no memory.
    pub fn contains(&self, path: &RelPath) -> bool
        ensures { result ≡ is_some (map.get self.now path.now) }
    {
        self.nodes.contains_key(path)
    }

    /// Puts a node, whatever was there.
    pub fn put(&mut self, path: RelPath, node: Node) -> Result<(), AllocError>
        ensures ok { OnOk result (self.new ≡ map.insert self.old path node) }
        ensures err { OnErr result (self.new ≡ self.old) }
    {
        self.nodes.insert(path, node)?;
        Ok(())
    }

    /// Takes away what stands at a path. It takes no memory.
    pub fn erase(&mut self, path: &RelPath)
        ensures { self.new ≡ map.remove self.old path.now }
    {
        let _ = self.nodes.remove(path);
    }

    /// Moves a node to a path where nothing is.
    pub fn shift(&mut self, from: &RelPath, to: &RelPath) -> Result<(), AllocError>
        requires { map.get self.old to.now ≡ None }
        ensures ok { OnOk result (self.new ≡ move self.old from.now to.now) }
        ensures err { OnErr result (self.new ≡ self.old) }
    {
        match self.get(from) {
            Some(node) => {
                let node = node.copy()?;
                self.put(to.copy()?, node)?;
                self.erase(from);
                Ok(())
            }
            None => Ok(()),
        }
    }

    /// The paths, ascending by bytes.
    pub fn paths(&self, alloc: Global) -> Result<Vec<RelPath>, AllocError>
        ensures { IfOk result (λ paths. paths.items ≡ map.keys self.now) }
    {
        let mut made = Vec::new(alloc);
        for (path, _) in self.nodes.iter() {
            made.push(path.copy()?)?;
        }
        Ok(made)
    }
}

impl Copied for Tree {
    fn copy(&self) -> Result<Tree, AllocError> {
        self.clone()
    }
}

/// Adds equal nodes for the paths of `from` in the share of this number, where none is yet.
pub fn add_share(made: &mut Tree, from: &Tree, number: u32, lanes: u32) -> Result<(), AllocError>
    requires { 1 ≤ lanes }
    ensures ok { OnOk result ((path : List ℕ) → map.get made.new path
        ≡ first_of (map.get made.old path) (in_share number lanes path (map.get from.now path))) }
{
    for (path, node) in from.nodes.iter() {
        if lane_of(path, lanes) != number {
            continue;
        }
        if made.contains(path) {
            continue;
        }
        made.put(path.copy()?, node.copy()?)?;
    }
    Ok(())
}
