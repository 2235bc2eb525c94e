//! Networks: looks at one, and whether two are the same.

use link_net::{NetFault, NetFile, Network, read_network};
use std::alloc::Global;
use std::process::Abort;
use std::test::Fail;

/// The path of three nodes with weights, phase 2, and the sets of two fields.
fn described(alloc: Global) -> Result<NetFile, NetFault> {
    read_network(
        alloc,
        b"nodes = 3\nlinks = [[2, 1, 4294967295], [0, 1, 0]]\nphase = 2\n[set]\ndist = [[2, 9], [0, -7]]\na = []\n",
    )
}

/// Nodes of the path, and their degrees.
const DEGREES: [(u32, Option<u32>); 4] = [(0, Some(1)), (1, Some(2)), (2, Some(1)), (3, None)];

/// Asserts the degrees of the path.
fn assert_degrees(rt: &impl Abort, network: &Network) {
    for (node, want) in &DEGREES {
        assert_eq!(rt; network.degree(*node), *want, "node {node}");
    }
}

/// Nodes of the path and slots, the neighbour there, and the weight of its link.
const SLOTS: [(u32, u32, Option<u32>, Option<u32>); 7] = [
    (1, 0, Some(0), Some(0)),
    (1, 1, Some(2), Some(4_294_967_295)),
    (0, 0, Some(1), Some(0)),
    (2, 0, Some(1), Some(4_294_967_295)),
    (1, 2, None, None),
    (3, 0, None, None),
    (4_294_967_295, 4_294_967_295, None, None),
];

/// Asserts the neighbours of the path.
fn assert_neighbours(rt: &impl Abort, network: &Network) {
    for (node, slot, neighbour, weight) in &SLOTS {
        let found = (
            network.neighbour(*node, *slot),
            network.weight(*node, *slot),
        );
        assert_eq!(rt; found, (*neighbour, *weight), "slot {slot} of {node}");
    }
}

/// Nodes of the path and neighbours, and the slot of the neighbour.
const SLOTS_OF: [(u32, u32, Option<u32>); 6] = [
    (1, 2, Some(1)),
    (1, 0, Some(0)),
    (2, 1, Some(0)),
    (0, 2, None),
    (1, 1, None),
    (3, 0, None),
];

/// Asserts the slots of the path.
fn assert_slots(rt: &impl Abort, network: &Network) {
    for (node, neighbour, want) in &SLOTS_OF {
        let found = network.slot_of(*node, *neighbour);
        assert_eq!(rt; found, *want, "{neighbour} of {node}");
    }
}

/// Asserts the row of the middle of the path, and that there is none of a node that is not there.
fn assert_rows(rt: &impl Abort, network: &Network) {
    let neighbours: &[u32] = &[0, 2];
    let weights: &[u32] = &[0, 4_294_967_295];
    assert_eq!(rt; network.neighbours(1), Some(neighbours));
    assert_eq!(rt; network.weights(1), Some(weights));
    assert_eq!(rt; network.neighbours(3), None);
    assert_eq!(rt; network.weights(3), None);
}

#[test]
fn looks_at_a_path(rt: HostRuntime) -> Result<(), Fail> {
    let file = described(rt.alloc())?;
    assert_degrees(&rt, file.network());
    assert_neighbours(&rt, file.network());
    assert_slots(&rt, file.network());
    assert_rows(&rt, file.network());
    Ok(())
}

/// Texts, and whether their networks are that of `nodes = 3`, `links = [[0, 1], [2, 1, 2]]`.
const OTHERS: [(&[u8], bool); 5] = [
    (
        b"nodes = 3\nlinks = [[1, 2, 2], [1, 0, 1]]\nphase = 1",
        true,
    ),
    (b"nodes = 3\nlinks = [[0, 1], [2, 1]]", false),
    (b"nodes = 3\nlinks = [[0, 1]]", false),
    (b"nodes = 4\nlinks = [[0, 1], [2, 1, 2]]", false),
    (b"nodes = 3\nlinks = [[0, 1], [0, 2, 2]]", false),
];

/// The network of a text.
fn network_of(alloc: Global, text: &[u8]) -> Result<Network, NetFault> {
    Ok(read_network(alloc, text)?.into_network())
}

/// Asserts whether the network of a text is the same.
fn assert_same(
    rt: &impl Abort,
    alloc: Global,
    one: &Network,
    text: &[u8],
    same: bool,
) -> Result<(), NetFault> {
    let other = network_of(alloc, text)?;
    assert_eq!(rt; one.same(&other), same, "{text:?}");
    Ok(())
}

#[test]
fn same_networks(rt: HostRuntime) -> Result<(), Fail> {
    let one = network_of(rt.alloc(), b"nodes = 3\nlinks = [[0, 1], [2, 1, 2]]")?;
    for (text, same) in &OTHERS {
        assert_same(&rt, rt.alloc(), &one, text, *same)?;
    }
    Ok(())
}

#[test]
fn network_out_of_its_file(rt: HostRuntime) -> Result<(), Fail> {
    let network = described(rt.alloc())?.into_network();
    assert_eq!(rt; network.nodes(), 3);
    assert_eq!(rt; network.slot_of(1, 2), Some(1));
    Ok(())
}
