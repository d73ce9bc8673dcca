ghost use Rattle.std.specs.Prelude.{◌≡◌, IfOk, OnOk};
ghost use Rattle.conda_history.specs.Reading as reading;
ghost use Rattle.conda_history.specs.declared.line.Line.TheVariants as says;

use crate::replay::listed;
use crate::revision::Block;
use crate::stamp::Stamp;
use conda_base::Rows;
use conda_path::Dist;
use std::alloc::{AllocError, Global};
use std::collections::BTreeSet;
use std::marker::Model;

/// The dists that the lines of a block name so far: behind `-` and behind `+` as each was named last,
/// and without a sign; and whether some line has a sign.
#[derive(Debug, Drop)]
pub struct NameSets {
    removed: BTreeSet<Dist>,
    added: BTreeSet<Dist>,
    plain: BTreeSet<Dist>,
    signed: bool,
}

impl Model for NameSets {
    ghost use Rattle.conda_history.specs.Names.{Names};

    ghost Value = { Names };

    ghost view = { λ s. record {
      removed = s.removed.keys;
      added = s.added.keys;
      plain = s.plain.keys;
      signed = s.signed;
    } };
}

impl NameSets {
    pub fn new(alloc: Global) -> NameSets
        ensures { result ≡ reading.no_names }
    {
        NameSets {
            removed: BTreeSet::new(alloc),
            added: BTreeSet::new(alloc),
            plain: BTreeSet::new(alloc),
            signed: false,
        }
    }

    /// Takes a line `-dist`.
    pub fn remove(&mut self, dist: Dist) -> Result<(), AllocError>
        ensures { OnOk result (self.new ≡ reading.named self.old (says.Removed dist)) }
    {
        self.added.remove(&dist);
        self.removed.insert(dist)?;
        self.signed = true;
        Ok(())
    }

    /// Takes a line `+dist`.
    pub fn add(&mut self, dist: Dist) -> Result<(), AllocError>
        ensures { OnOk result (self.new ≡ reading.named self.old (says.Added dist)) }
    {
        self.removed.remove(&dist);
        self.added.insert(dist)?;
        self.signed = true;
        Ok(())
    }

    /// Takes a line without a sign.
    pub fn name(&mut self, dist: Dist) -> Result<(), AllocError>
        ensures { OnOk result (self.new ≡ reading.named self.old (says.Plain dist)) }
    {
        self.plain.insert(dist)?;
        Ok(())
    }

    /// The block of a stamp with these names.
    pub fn into_block(self, alloc: Global, stamp: Stamp) -> Result<Block, AllocError>
        ensures { IfOk result (λ block. block ≡ reading.block_of stamp self) }
    {
        let NameSets {
            removed,
            added,
            plain,
            signed,
        } = self;
        if !signed && !plain.is_empty() {
            return Ok(Block {
                stamp,
                removed: Rows::new(alloc),
                added: listed(alloc, plain)?,
                whole: true,
            });
        }
        Ok(Block {
            stamp,
            removed: listed(alloc, removed)?,
            added: listed(alloc, added)?,
            whole: false,
        })
    }
}
