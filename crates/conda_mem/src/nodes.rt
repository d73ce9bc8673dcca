ghost use Rattle.std.specs.Prelude.{◌≡◌, IfOk, OnErr, OnOk};
ghost use Rattle.std.specs.FinMap as map;
ghost use Rattle.std.specs.Option.{option_copied};
ghost use Rattle.conda_device.specs.Channels.{ListsFolders};
ghost use Rattle.conda_mem.specs.Given.{with_files};

use crate::folders::folder_in;
use conda_base::{Rows, Text};
use conda_path::Node;
use std::alloc::{AllocError, Global};
use std::collections::BTreeMap;
use std::marker::Model;

/// Paths of a channel and their nodes, ascending by path.
#[derive(Drop)]
pub struct Nodes {
    nodes: BTreeMap<Text, Node>,
}

impl Model for Nodes {
    ghost use Rattle.std.specs.FinMap as map;
    ghost use Rattle.conda_device.specs.Channels as channels;
    ghost use Rattle.conda_device.specs.Tree as tree;

    ghost Value = { channels.Files };

    ghost coded = { tree.coded_tree };

    ghost view = { λ n. map.from_entries n.nodes.entries };
}

impl Nodes {
    /// No paths. It takes no memory.
    pub fn new(alloc: Global) -> Nodes
        ensures { result ≡ map.empty }
    {
        Nodes {
            nodes: BTreeMap::new(alloc),
        }
    }

    /// The node at a path. It takes no memory.
    pub fn get(&self, path: &Text) -> Option<&Node>
        ensures { option_copied result ≡ map.get self.now path.now }
    {
        self.nodes.get(path)
    }

    /// Puts a node, whatever was there.
    fn put(&mut self, path: Text, node: Node) -> Result<(), AllocError>
        ensures ok { OnOk result (self.new ≡ map.insert self.old path node) }
        ensures err { OnErr result (self.new ≡ self.old) }
    {
        self.nodes.insert(path, node)?;
        Ok(())
    }

    /// The names of the folders in a subdir that have an index file, in the order of the paths.
    pub fn names_in(&self, alloc: Global, subdir: &str) -> Result<Vec<Text>, AllocError>
        ensures { IfOk result (λ names. ListsFolders self.now subdir.now names.items) }
    {
        let mut names = Vec::new(alloc);
        for (path, _) in self.nodes.iter() {
            if let Some(name) = folder_in(path.as_str(), subdir) {
                names.push(Text::from_str(alloc, name)?)?;
            }
        }
        Ok(names)
    }
}

/// The nodes of a list. Of two for one path the last counts.
pub fn nodes_of(alloc: Global, files: Rows<(Text, Node)>) -> Result<Nodes, AllocError>
    ensures { IfOk result (λ made. made ≡ with_files map.empty files) }
{
    let mut made = Nodes::new(alloc);
    for (path, node) in files.into_vec() {
        made.put(path, node)?;
    }
    Ok(made)
}
