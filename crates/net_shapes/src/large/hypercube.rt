//! The neighbours of a node of a hypercube.
ghost use Rattle.std.specs.Prelude.{◌≡◌, ◌<◌, ◌≤◌, ◌^◌, ◌++◌, OnOk};
ghost use Rattle.link_net.specs.Neighbours.{numbers_below};
ghost use Rattle.net_shapes.specs.Ahead.{raised};
ghost use Rattle.net_shapes.specs.Listed.{lowered};

use crate::large::put::put_if;
use crate::sizes::power;
use std::alloc::AllocError;

/// Puts the numbers that have 0 in place of one of a number's binary digits 1, the highest digit first.
fn put_lower(neighbours: &mut Vec<u32>, dimension: u32, node: u32) -> Result<(), AllocError>
    requires few { dimension ≤ 31 }
    ensures { OnOk result (neighbours.new.items ≡ neighbours.old.items ++ lowered node (numbers_below dimension)) }
{
    for place in 0..dimension {
        let step = power(dimension - 1 - place);
        put_if(neighbours, node / step % 2 == 1, node.saturating_sub(step))?;
    }
    Ok(())
}

/// Puts the numbers that have 1 in place of one of a number's binary digits 0, the lowest digit first.
fn put_higher(neighbours: &mut Vec<u32>, dimension: u32, node: u32) -> Result<(), AllocError>
    requires few { dimension ≤ 31 }
    requires low { node < 2 ^ 31 }
    ensures { OnOk result (neighbours.new.items ≡ neighbours.old.items ++ raised node (numbers_below dimension)) }
{
    for digit in 0..dimension {
        let step = power(digit);
        put_if(neighbours, node / step % 2 == 0, node + step)?;
    }
    Ok(())
}

/// Puts the numbers that differ in one of so many binary digits, by rising number.
pub(crate) fn put_hypercube(
    neighbours: &mut Vec<u32>,
    dimension: u32,
    node: u32,
) -> Result<(), AllocError>
    requires few { dimension ≤ 31 }
    requires low { node < 2 ^ 31 }
    ensures { OnOk result (neighbours.new.items ≡ neighbours.old.items ++ (lowered node (numbers_below dimension) ++ raised node (numbers_below dimension))) }
{
    put_lower(neighbours, dimension, node)?;
    put_higher(neighbours, dimension, node)
}
