ghost use Rattle.std.specs.Prelude.{◌≡◌, ◌++◌, []};
ghost use Rattle.std.specs.Option.{option_to_list};

use conda_device::Got;
use std::alloc::{AllocError, Global};
use std::marker::Model;
use std::mem;

/// The last reads of stores, if they had one, the latest first.
#[derive(Drop)]
pub enum Chain {
    End,
    More(Option<Got>, Box<Chain>),
}

/// The last reads of the stores that came back, one after another.
#[derive(Drop)]
pub struct Gots {
    chain: Chain,
}

/// The room for one more.
#[derive(Drop)]
pub struct Room {
    place: Box<Chain>,
}

impl Model for Gots {
    ghost use Rattle.std.specs.Prelude.{List};
    ghost use Rattle.conda_device.specs.declared.touched.Got.{Got};
    ghost use Rattle.conda_mem.specs.Reads.{reads_of};

    ghost Value = { List Got };

    ghost view = { λ gots. reads_of gots.chain };
}

impl Room {
    pub fn make(alloc: Global) -> Result<Room, AllocError> {
        let place = Box::new(alloc, Chain::End)?;
        Ok(Room { place })
    }
}

impl Gots {
    /// None yet. It takes no memory.
    pub fn new() -> Gots
        ensures { result ≡ [] }
    {
        Gots { chain: Chain::End }
    }

    /// Adds a read at the end, if there is one. It takes no memory.
    pub fn push(&mut self, room: Room, got: Option<Got>)
        ensures { self.new ≡ self.old ++ option_to_list got }
    {
        let Room { mut place } = room;
        *place = mem::replace(&mut self.chain, Chain::End);
        self.chain = Chain::More(got, place);
    }
}
