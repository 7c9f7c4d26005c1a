ghost use Rattle.std.specs.Prelude.{◌≡◌, ◌∷◌, [], IfOk, OnErr, OnOk};
ghost use Rattle.pc_model.specs.declared.tree.LeafMark.TheVariants.{Barren};
ghost use Rattle.pc_model.specs.declared.tree.CutNode.TheVariants as forms;
ghost use Rattle.pc_model.specs.WellFormed.{IsWellFormed};
ghost use Rattle.pc_cells_tree.specs.Linked.{CanBeDivided, IsTree, IsCutOn, IsDividedFor, KeepsInner};
ghost use Rattle.pc_cells_tree.specs.Owned.{HasOwnCuts};
ghost use Rattle.pc_cells_tree.specs.Walking.{HasCutsOf};
ghost use Rattle.pc_cells.specs.Found.{AreCellsFor};

use crate::cells::Cells;
use crate::gather::gather;
use pc_cells_tree::{Growth, Refinement, marked, refined};
use pc_list::Seq;
use pc_model::{Area, Constraint, CutNode, CutTree, LeafMark, Schema};
use pc_num::Memory;
use std::alloc::Global;

/// A tree of cuts for many areas: it is linked by the numbers of its nodes and grows only at its end, and its
/// leaves have no marks.
#[derive(Debug, PartialEq, Eq, Drop)]
pub struct Shared {
    pub nodes: Seq<CutNode>,
}

impl Shared {
    /// The tree of one leaf.
    pub fn new(alloc: Global, schema: &Schema) -> Result<Self, Memory>
        requires well_formed { IsWellFormed schema.now }
        ensures tree { IfOk result (λ shared. IsTree schema.now shared.nodes) }
        ensures one { IfOk result (λ shared. shared.nodes ≡ forms.Leaf Barren ∷ []) }
        ensures own { IfOk result (λ shared. HasOwnCuts schema.now shared.nodes) }
    {
        let _schema = schema;
        let leaf = CutNode::Leaf {
            mark: LeafMark::Barren,
        };
        Ok(Shared {
            nodes: Seq::from_vec(vec![in alloc; leaf]?),
        })
    }

    /// Cuts the leaves that cannot be marked, and their parts, until each leaf can be marked as settled for the
    /// constraints and the area; answers how many cuts that took. After `Memory` the tree is as before.
    pub fn refine(
        &mut self,
        schema: &Schema,
        constraints: &[Constraint],
        chosen: &Area,
    ) -> Result<u64, Memory>
        requires asked { CanBeDivided schema.now constraints.now chosen.now }
        requires tree { IsTree schema.now self.old.nodes }
        ensures cut_on { IfOk result (IsCutOn schema.now constraints.now chosen.now self.old.nodes self.new.nodes) }
        ensures inner { OnOk result (KeepsInner self.old.nodes self.new.nodes) }
        ensures own { OnOk result (HasOwnCuts schema.now self.old.nodes → HasOwnCuts schema.now self.new.nodes) }
        ensures memory { OnErr result (self.new ≡ self.old) }
    {
        let alloc = self.nodes.allocator();
        let Refinement { nodes, cuts } = refined(
            alloc,
            schema,
            constraints,
            chosen,
            self.nodes.as_slice(),
        )?;
        self.nodes = nodes;
        Ok(cuts)
    }

    /// The cells of the rows, as `decompose` finds them: the tree with its marks, its nodes numbered anew in
    /// preorder, and the leaves of each class.
    pub fn cells(
        &self,
        schema: &Schema,
        constraints: &[Constraint],
        chosen: &Area,
    ) -> Result<Cells, Memory>
        requires asked { CanBeDivided schema.now constraints.now chosen.now }
        requires tree { IsTree schema.now self.now.nodes }
        requires divided { IsDividedFor schema.now constraints.now chosen.now self.now.nodes }
        ensures found { IfOk result (AreCellsFor schema.now constraints.now chosen.now) }
        ensures same { IfOk result (λ found. HasCutsOf self.now.nodes found.tree.nodes) }
    {
        let alloc = self.nodes.allocator();
        let Growth { nodes, leaves } = marked(
            alloc,
            schema,
            constraints,
            chosen,
            self.nodes.as_slice(),
        )?;
        let cells = gather(alloc, leaves)?;
        Ok(Cells {
            tree: CutTree { nodes },
            cells,
        })
    }
}
