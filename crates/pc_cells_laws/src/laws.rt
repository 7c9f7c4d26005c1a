ghost use Rattle.std.specs.Prelude.{◌≡◌, ◌↔◌, ℕ, cond, true, List, All, Any, Contains, count_by};
ghost use Rattle.pc_model.specs.declared.schema.Schema.{Schema};
ghost use Rattle.pc_model.specs.declared.row.Row.{Row};
ghost use Rattle.pc_model.specs.declared.region.Region.{Region};
ghost use Rattle.pc_model.specs.declared.area.Area.{Area};
ghost use Rattle.pc_model.specs.declared.constraint.Constraint.{Constraint};
ghost use Rattle.pc_model.specs.declared.tree.CutNode.{CutNode};
ghost use Rattle.pc_model.specs.declared.tree.Leaf.{Leaf};
ghost use Rattle.pc_model.specs.Membership.{in_domain, has};
ghost use Rattle.pc_model.specs.Regions.{is_region_of};
ghost use Rattle.pc_model.specs.WellFormed.{IsWellFormed};
ghost use Rattle.pc_model.specs.CutTrees.{CutShape, nodes_from, shape_of, leaves_of, HasRow, HasProperCuts};
ghost use Rattle.pc_model.specs.Cells.{Class, class_of, IsLawful, IsRowOf, HasRowOf, IsSettled, IsSettledTree, is_leaf_of, classes_of, boxes_of, leaves_in};

/// The nodes of a tree in preorder are those of no other tree.
#[tactic(auto, using(crate::proofs::Trees::nodes_spell))]
pub fn nodes_spell_their_tree()
    ensures { (tree : CutShape) (number : ℕ) → shape_of (nodes_from number tree) ≡ tree }
{}

/// Each row of a box is in one leaf of a tree of proper cuts over it, and any other row in none.
#[tactic(auto, using(crate::proofs::TreesLeaves::one_leaf))]
pub fn rows_are_in_one_leaf()
    ensures { (box : Region) (tree : CutShape) (row : Row) → HasProperCuts box tree → count_by (λ (leaf : Leaf). has leaf.region row) (leaves_of box tree) ≡ cond (has box row) 1 0 }
{}

/// Each leaf of a tree of proper cuts has a row, if its box has one.
#[tactic(auto, using(crate::proofs::TreesLeaves::leaf_rows))]
pub fn leaves_hold_rows()
    ensures { (box : Region) (tree : CutShape) → HasRow box → HasProperCuts box tree → All (λ (leaf : Leaf). HasRow leaf.region) (leaves_of box tree) }
{}

/// The leaves of a tree of proper cuts over a region of a schema are regions of that schema.
#[tactic(auto, using(crate::proofs::TreesLeaves::leaf_regions))]
pub fn leaves_are_of_the_schema()
    ensures { (schema : Schema) (box : Region) (tree : CutShape) → is_region_of schema box ≡ true → HasProperCuts box tree → All (λ (leaf : Leaf). is_region_of schema leaf.region ≡ true) (leaves_of box tree) }
{}

/// A row of a settled leaf that can be lost has the leaf's class.
#[tactic(auto, using(crate::proofs::LeafRows::class_of_leaf))]
pub fn settled_leaves_know_the_class()
    ensures { (constraints : List Constraint) (chosen : Area) (leaf : Leaf) (row : Row) → IsSettled constraints chosen leaf → has leaf.region row ≡ true → IsLawful constraints row → is_leaf_of (class_of constraints chosen row) leaf ≡ true }
{}

/// Each row of a settled leaf of a class can be lost.
pub fn settled_rows_can_be_lost()
    ensures { (schema : Schema) (constraints : List Constraint) (chosen : Area) (class : Class) (leaf : Leaf) (row : Row) → IsSettled constraints chosen leaf → is_leaf_of class leaf ≡ true → in_domain schema row ≡ true → has leaf.region row ≡ true → IsRowOf schema constraints chosen class row }
{}

/// The classes of a settled tree are those of the rows that can be lost.
pub fn classes_are_those_of_rows()
    ensures { (schema : Schema) (constraints : List Constraint) (chosen : Area) (nodes : List CutNode) → IsWellFormed schema → IsSettledTree schema constraints chosen nodes → (class : Class) → (Contains (classes_of (leaves_in schema nodes)) class ↔ HasRowOf schema constraints chosen class) }
{}

/// The rows of a class that can be lost are those in the boxes of its leaves.
pub fn rows_of_a_class_are_in_its_boxes()
    ensures { (schema : Schema) (constraints : List Constraint) (chosen : Area) (nodes : List CutNode) → IsWellFormed schema → IsSettledTree schema constraints chosen nodes → (class : Class) (row : Row) → (IsRowOf schema constraints chosen class row ↔ Any (λ (box : Region). has box row ≡ true) (boxes_of (leaves_in schema nodes) class)) }
{}
