//! What the rules ask of small documents, line by line, and the numbers of a worked average, by hand.
ghost use Rattle.std.specs.Prelude.{◌≡◌, pos, neg_ℤ, ◌∷◌, [], List, Some, None};
ghost use Rattle.pc_num.specs.declared.Frac.{Frac};
ghost use Rattle.pc_model.specs.declared.query.Agg.TheVariants as aggs;
ghost use Rattle.pc_model.specs.declared.row.Run.{Run};
ghost use Rattle.pc_model.specs.declared.tree.Tree.{Tree};
ghost use Rattle.pc_proof.specs.declared.answer.Mark.TheVariants as marks;
ghost use Rattle.pc_proof.specs.declared.answer.Proof.TheVariants as proofs;
ghost use Rattle.pc_proof.specs.Table.{bound_for, seen_above, left_over, fewest, greatest_number, least_number, raised_by, lowered_by, high_program, low_program};
ghost use Rattle.pc_proof.specs.Unbroken.{MayShow};
ghost use Rattle.pc_proof.specs.Demands.{own, same, block_demands, next_line, treeless_demands};
ghost use Rattle.pc_proof.specs.Documents.{IsFirstBrokenIn, nodes_after};
ghost use Rattle.pc_proof.specs.Samples as given;
ghost use Rattle.pc_proof.specs.Samples.{places, case_of, grouped, shop_tree, one_leaf, no_cell};

// The document with an end by five rows.
fn sum_by_trees()
    ensures demands { places (block_demands own (case_of aggs.Sum shop_tree) 2 given.shop_answer) ≡ (4, 3) ∷ (5, 3) ∷ (6, 4) ∷ (7, 4) ∷ (8, 4) ∷ (9, 5) ∷ (10, 5) ∷ (10, 6) ∷ (12, 8) ∷ (10, 11) ∷ (13, 5) ∷ (13, 6) ∷ (16, 8) ∷ (13, 12) ∷ [] }
    ensures next { next_line own (case_of aggs.Sum shop_tree) 2 given.shop_answer ≡ 17 }
{}

// `by rows` at the lack and at the high end, which is exact.
fn least_by_rows()
    ensures demands { places (block_demands own (case_of aggs.Min one_leaf) 2 given.seen_answer) ≡ (4, 4) ∷ (5, 5) ∷ (6, 10) ∷ (10, 8) ∷ (8, 11) ∷ (11, 5) ∷ (11, 6) ∷ (11, 12) ∷ [] }
    ensures next { next_line own (case_of aggs.Min one_leaf) 2 given.seen_answer ≡ 13 }
{}

// A block of a group: `never` by a tree, `by values`, and `by at` with a tree of three lines.
fn average_of_a_group()
    ensures demands { places (block_demands own (grouped aggs.Avg one_leaf) 2 given.ratio_answer) ≡ (3, 2) ∷ (5, 4) ∷ (6, 5) ∷ (9, 8) ∷ (7, 10) ∷ (10, 11) ∷ (14, 7) ∷ (15, 8) ∷ (16, 8) ∷ (12, 12) ∷ [] }
    ensures next { next_line own (grouped aggs.Avg one_leaf) 2 given.ratio_answer ≡ 17 }
{}

// The block after it, with a tree that is the same: its five lines stand in one.
fn void_with_the_same_tree()
    ensures demands { places (block_demands same (case_of aggs.Count shop_tree) 17 given.by_void) ≡ (18, 3) ∷ (18, 3) ∷ (18, 4) ∷ (18, 4) ∷ (18, 4) ∷ (21, 7) ∷ (22, 8) ∷ (23, 8) ∷ (19, 9) ∷ [] }
    ensures next { next_line same (case_of aggs.Count shop_tree) 17 given.by_void ≡ 24 }
{}

// Such a tree in the first block, of a query with no name and of one with a name.
fn no_tree_before()
    ensures unnamed { places (treeless_demands 2 None) ≡ (3, 2) ∷ [] }
    ensures named { places (treeless_demands 2 (Some 0)) ≡ (3, 2) ∷ (4, 2) ∷ [] }
    ensures broken { IsFirstBrokenIn given.premises None 2 4 2 (given.same_block ∷ []) }
    ensures known { nodes_after (Some shop_tree) given.same_block.tree ≡ Some shop_tree }
{}

fn impossible_by_two_trees()
    ensures demands { places (block_demands own (case_of aggs.Count one_leaf) 2 given.by_cross) ≡ (4, 4) ∷ (7, 8) ∷ (8, 7) ∷ (9, 8) ∷ (10, 8) ∷ (5, 9) ∷ [] }
    ensures next { next_line own (case_of aggs.Count one_leaf) 2 given.by_cross ≡ 11 }
{}

fn impossible_by_ends()
    ensures demands { places (block_demands own (case_of aggs.Sum one_leaf) 2 given.by_ends) ≡ (4, 4) ∷ (9, 8) ∷ (12, 8) ∷ (5, 9) ∷ [] }
    ensures next { next_line own (case_of aggs.Sum one_leaf) 2 given.by_ends ≡ 13 }
{}

fn always_by_a_tree()
    ensures demands { places (block_demands own (case_of aggs.Avg one_leaf) 2 given.always_by_tree) ≡ (4, 4) ∷ (5, 5) ∷ (8, 8) ∷ (6, 10) ∷ [] }
    ensures next { next_line own (case_of aggs.Avg one_leaf) 2 given.always_by_tree ≡ 9 }
{}

fn always_by_ends()
    ensures demands { places (block_demands own (case_of aggs.Max one_leaf) 2 given.always_by_ends) ≡ (4, 4) ∷ (5, 5) ∷ (10, 8) ∷ (13, 8) ∷ (6, 10) ∷ [] }
    ensures next { next_line own (case_of aggs.Max one_leaf) 2 given.always_by_ends ≡ 14 }
{}

// One run after `none sometimes`, and two after `some`.
fn sometimes_by_runs()
    ensures demands { places (block_demands own (case_of aggs.Avg one_leaf) 2 given.sometimes) ≡ (4, 4) ∷ (5, 5) ∷ (6, 5) ∷ (6, 6) ∷ (8, 5) ∷ (8, 6) ∷ (11, 11) ∷ (13, 12) ∷ [] }
    ensures next { next_line own (case_of aggs.Avg one_leaf) 2 given.sometimes ≡ 15 }
{}

fn nothing_decided()
    ensures demands { places (block_demands own (case_of aggs.Avg one_leaf) 2 given.undecided) ≡ (4, 4) ∷ (5, 9) ∷ (7, 11) ∷ (9, 12) ∷ [] }
    ensures next { next_line own (case_of aggs.Avg one_leaf) 2 given.undecided ≡ 11 }
{}

// Ends that are exact are not shown at a ratio, nor by the values of rows.
fn exact_ends_have_trees()
    ensures ratio { (runs : List Run) (r : Frac) (t : Tree) → MayShow (marks.Exact runs) (proofs.At r t) → ⊥ }
    ensures values { (runs : List Run) → MayShow (marks.Exact runs) proofs.Values → ⊥ }
{}

// Of 15000 in two rows, at 38401/3 with five rows of 14999 more, 3 * 15000 - 2 * 38401 + 5 * 6596 is left over: 1178,
// of which each of two rows has a half. At 6601/3, with five rows of 0 more, 2 * 6601 - 3 * 15000 + 5 * 6601 is: 1207.
#[tactic(auto, unfolding(pc_model::specs::Membership::has, pc_model::specs::Membership::holds, pc_model::specs::CutTrees::first_side, pc_model::specs::CutTrees::second_side, pc_program_bound::specs::Sums::sum_below))]
fn average_at_a_ratio()
    ensures fewest { fewest (given.average given.two_rows shop_tree).question ≡ pos 2 }
    ensures greatest { greatest_number (given.average given.two_rows shop_tree) ≡ Some (pos 14999) }
    ensures least { least_number (given.average given.two_rows shop_tree) ≡ Some (pos 0) }
    ensures over { left_over (seen_above (given.average given.two_rows shop_tree).question given.high_ratio) (bound_for (high_program (given.average given.two_rows shop_tree) aggs.Avg given.high_ratio) (given.bound_line (pos 6596))) ≡ pos 1178 }
    ensures raised { raised_by (given.average given.two_rows shop_tree) given.high_ratio (given.bound_line (pos 6596)) ≡ given.ratio (pos 77980) (pos 6) }
    ensures under { left_over (neg_ℤ (seen_above (given.average given.two_rows shop_tree).question given.low_ratio)) (bound_for (low_program (given.average given.two_rows shop_tree) aggs.Avg given.low_ratio) (given.bound_line (pos 6601))) ≡ pos 1207 }
    ensures lowered { lowered_by (given.average given.two_rows shop_tree) given.low_ratio (given.bound_line (pos 6601)) ≡ given.ratio (pos 11995) (pos 6) }
{}

// Without observed rows D is 1; without a chosen cell the numbers are those observed, and without either there are none.
#[tactic(auto, unfolding(pc_model::specs::Membership::has, pc_model::specs::Membership::holds, pc_model::specs::CutTrees::first_side, pc_model::specs::CutTrees::second_side, pc_program_bound::specs::Sums::sum_below))]
fn numbers_of_rows()
    ensures fewest { fewest (given.average [] shop_tree).question ≡ pos 1 }
    ensures lost { greatest_number (given.average [] shop_tree) ≡ Some (pos 14999) }
    ensures greatest { greatest_number (given.average given.two_rows no_cell) ≡ Some (pos 10000) }
    ensures least { least_number (given.average given.two_rows no_cell) ≡ Some (pos 5000) }
    ensures nothing { greatest_number (given.average [] no_cell) ≡ None }
{}
