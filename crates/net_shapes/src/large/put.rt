//! Numbers that are put behind others.
ghost use Rattle.std.specs.Prelude.{◌≡◌, ◌+◌, ◌≤◌, ◌++◌, OnOk};
ghost use Rattle.std.specs.List.{range_with_len};
ghost use Rattle.link_net.specs.Limits.{most_rows};
ghost use Rattle.net_shapes.specs.Ahead.{when};

use std::alloc::AllocError;

/// Puts so many numbers, from the first one on.
pub(crate) fn put_range(neighbours: &mut Vec<u32>, first: u32, count: u32) -> Result<(), AllocError>
    requires small { first + count ≤ most_rows }
    ensures { OnOk result (neighbours.new.items ≡ neighbours.old.items ++ range_with_len first count) }
{
    for step in 0..count {
        neighbours.push(first + step)?;
    }
    Ok(())
}

/// Puts a number, where it is wanted.
pub(crate) fn put_if(neighbours: &mut Vec<u32>, wanted: bool, node: u32) -> Result<(), AllocError>
    ensures { OnOk result (neighbours.new.items ≡ neighbours.old.items ++ when wanted node) }
{
    if wanted {
        neighbours.push(node)?;
    }
    Ok(())
}
