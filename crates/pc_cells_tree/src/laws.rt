ghost use Rattle.std.specs.Prelude.{List};
ghost use Rattle.pc_model.specs.declared.schema.Schema.{Schema};
ghost use Rattle.pc_model.specs.declared.region.Region.{Region};
ghost use Rattle.pc_model.specs.declared.area.Area.{Area};
ghost use Rattle.pc_model.specs.declared.constraint.Constraint.{Constraint};
ghost use Rattle.pc_model.specs.declared.tree.CutNode.{CutNode};
ghost use Rattle.pc_model.specs.CutTrees.{IsInside};
ghost use Rattle.pc_cells_tree.specs.Decisions.{CanBeSettled};
ghost use Rattle.pc_cells_tree.specs.Linked.{IsTree, IsDividedFor, HasKept, KeepsInner};

/// If a box can be marked, so can each part of it.
pub fn parts_can_be_settled()
    ensures { (constraints : List Constraint) (chosen : Area) (box part : Region) → CanBeSettled constraints chosen box → IsInside part box → CanBeSettled constraints chosen part }
{}

/// A tree that is cut on for some constraints and an area stays divided for others and another area.
pub fn refined_trees_stay_divided()
    ensures { (schema : Schema) (constraints others : List Constraint) (chosen other : Area) (before after : List CutNode) → IsTree schema before → HasKept schema constraints chosen before after → IsDividedFor schema others other before → IsDividedFor schema others other after }
{}

/// A tree whose inner nodes stay is divided still for what it was divided for.
pub fn kept_trees_stay_divided()
    ensures { (schema : Schema) (others : List Constraint) (other : Area) (before after : List CutNode) → IsTree schema before → KeepsInner before after → IsDividedFor schema others other before → IsDividedFor schema others other after }
{}
