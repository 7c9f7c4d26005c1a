ghost use Rattle.std.specs.Prelude.{◌≡◌, ◌<◌, ◌^◌, length, IfOk, IsOk, OnOk};
ghost use Rattle.pc_cells_tree.specs.Growing.{with_leaf, with_place, with_inner};

use pc_list::Seq;
use pc_model::{Cut, CutNode, Leaf, LeafMark, Region};
use pc_num::Memory;

/// A settled tree of cuts: its nodes in preorder, and its leaves with their regions in the same order.
#[derive(Debug, PartialEq, Eq, Drop)]
pub struct Growth {
    pub nodes: Seq<CutNode>,
    pub leaves: Seq<Leaf>,
}

impl Growth {
    #[inline(always)]
    pub(crate) fn with_leaf(mut self, region: Region, mark: LeafMark) -> Result<Growth, Memory>
        ensures { IfOk result (λ more. more ≡ with_leaf self region mark) }
    {
        self.nodes.push(CutNode::Leaf { mark })?;
        self.leaves.push(Leaf { region, mark })?;
        Ok(self)
    }

    // With a place kept for a node whose parts are still to be grown.
    #[inline(always)]
    pub(crate) fn with_place(mut self) -> Result<Growth, Memory>
        ensures { IfOk result (λ more. more ≡ with_place self) }
    {
        let mark = LeafMark::Barren;
        self.nodes.push(CutNode::Leaf { mark })?;
        Ok(self)
    }

    // With a cut in a kept place: its first part stands behind it, and its second comes next.
    #[inline(always)]
    pub(crate) fn with_inner(self, place: usize, cut: Cut) -> Result<Growth, Memory>
        requires there { place < length self.nodes }
        ensures inner { IfOk result (λ more. more ≡ with_inner self place cut) }
        ensures given { length self.nodes < 2 ^ 32 → IsOk result }
    {
        let Growth { nodes, leaves } = self;
        let first = number(place + 1)?;
        let second = number(nodes.len())?;
        let mut nodes = nodes.into_vec();
        nodes[place] = CutNode::Inner { cut, first, second };
        Ok(Growth {
            nodes: Seq::from_vec(nodes),
            leaves,
        })
    }
}

// A count as the number of a node; a list with more nodes than numbers would want too much memory.
#[inline(always)]
pub(crate) fn number(count: usize) -> Result<u32, Memory>
    ensures same { IfOk result (λ number. number ≡ count) }
    ensures small { OnOk result (count < 2 ^ 32) }
    ensures given { count < 2 ^ 32 → IsOk result }
{
    u32::try_from(count).map_err(|_| Memory)
}
