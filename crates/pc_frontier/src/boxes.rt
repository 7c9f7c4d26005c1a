ghost use Rattle.std.specs.Prelude.{◌≡◌, ◌<◌, length};
ghost use Rattle.pc_frontier.specs.Frontier.{node_at};
ghost use Rattle.pc_frontier.specs.Boxes.{AreOrdered, AreFitting, box_at, raised, sunk};

use crate::node::{Born, Node};

/// Narrows floors by the split that made a node.
fn raise(born: Born, floor: &mut [u64])
    requires cell { born.cell < length floor.old }
    requires small { born.at < 18_446_744_073_709_551_615 }
    ensures { floor.new ≡ raised born floor.old }
{
    if born.more {
        let cell = born.cell as usize;
        let least = born.at + 1;
        floor[cell] = floor[cell].max(least);
    }
}

/// Narrows caps by the split that made a node.
fn sink(born: Born, cap: &mut [u64])
    requires { born.cell < length cap.old }
    ensures { cap.new ≡ sunk born cap.old }
{
    if !born.more {
        let cell = born.cell as usize;
        cap[cell] = cap[cell].min(born.at);
    }
}

/// How a node was made.
fn born(nodes: &[Node], place: usize) -> Option<Born>
    requires { place < length nodes.now }
    ensures { result ≡ (node_at nodes.now place).born }
{
    nodes[place].born
}

/// Narrows a start box by the splits on the path from a node up to the root.
pub(crate) fn narrow(nodes: &[Node], node: usize, floor: &mut [u64], cap: &mut [u64])
    requires there { node < length nodes.now }
    requires ordered { AreOrdered nodes.now }
    requires fits { AreFitting nodes.now (record { floors = floor.old; caps = cap.old }) }
    ensures floor { floor.new ≡ (box_at nodes.now (record { floors = floor.old; caps = cap.old }) node).floors }
    ensures cap { cap.new ≡ (box_at nodes.now (record { floors = floor.old; caps = cap.old }) node).caps }
{
    let mut place = node;
    while let Some(split) = born(nodes, place) {
        raise(split, floor);
        sink(split, cap);
        place = split.parent as usize;
    }
}
