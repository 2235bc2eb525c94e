//! What a network file describes.
ghost use Rattle.std.specs.Prelude.{◌≡◌, ◌≤◌};
ghost use Rattle.link_net.specs.Names.{AreRising};

use crate::draft::FieldSets;
use crate::{FieldSet, Network};
use std::marker::Model;

/// A network with its opening phase and the opening values of `set`.
#[derive(Drop)]
pub struct NetFile {
    network: Network,
    phase: u8,
    sets: FieldSets,
}

impl Model for NetFile {
    ghost use Rattle.std.specs.Prelude.{◌≤◌};
    ghost use Rattle.link_net.specs.Reading.{Description};

    ghost Value = { Description };

    ghost view = { λ a. record { network = a.network; phase = a.phase; sets = a.sets } };

    ghost invariant = { λ a. a.phase ≤ 2 };
}

impl NetFile {
    /// What a file describes: its network, its opening phase and its field sets.
    pub(crate) fn new(network: Network, phase: u8, sets: FieldSets) -> NetFile
        requires { phase ≤ 2 }
        ensures { result ≡ record { network = network; phase = phase; sets = sets } }
    {
        NetFile {
            network,
            phase,
            sets,
        }
    }

    /// The network.
    pub fn network(&self) -> &Network
        ensures value { result.now ≡ self.now.network }
    {
        &self.network
    }

    /// The phase of every node at the opening: 0, 1 or 2.
    pub fn phase(&self) -> u8
        ensures value { result ≡ self.now.phase }
        ensures bound { result ≤ 2 }
    {
        self.phase
    }

    /// The keys of `set` with their pairs, by rising order of the keys' bytes.
    pub fn sets(&self) -> &[FieldSet]
        ensures value { result.now ≡ self.now.sets }
        ensures rising { AreRising result.now }
    {
        self.sets.as_slice()
    }

    /// The network, moved out of the file.
    pub fn into_network(self) -> Network
        ensures value { result ≡ self.network }
    {
        self.network
    }
}
