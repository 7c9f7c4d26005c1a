//! Worked quantiles, by hand.
ghost use Rattle.std.specs.Prelude.{◌≡◌, ℤ, pos, List, ◌∷◌, [], Some};
ghost use Rattle.pc_quantile.specs.Quantile.{quantile};

// Of four numbers two are at most the second, and all are at most the last.
fn of_four_numbers()
    ensures half { quantile 1 2 (pos 40 ∷ pos 10 ∷ pos 30 ∷ pos 20 ∷ []) ≡ Some (pos 20) }
    ensures more_than_half { quantile 501 1000 (pos 40 ∷ pos 10 ∷ pos 30 ∷ pos 20 ∷ []) ≡ Some (pos 30) }
    ensures all { quantile 1 1 (pos 40 ∷ pos 10 ∷ pos 30 ∷ pos 20 ∷ []) ≡ Some (pos 40) }
    ensures few { quantile 1 1000 (pos 40 ∷ pos 10 ∷ pos 30 ∷ pos 20 ∷ []) ≡ Some (pos 10) }
{}

// Of five numbers the third is in the middle, and equal numbers are counted each.
fn of_five_numbers()
    ensures half { quantile 1 2 (pos 7 ∷ pos 3 ∷ pos 9 ∷ pos 3 ∷ pos 1 ∷ []) ≡ Some (pos 3) }
    ensures three_in_five { quantile 3 5 (pos 7 ∷ pos 3 ∷ pos 9 ∷ pos 3 ∷ pos 1 ∷ []) ≡ Some (pos 3) }
    ensures four_in_five { quantile 4 5 (pos 7 ∷ pos 3 ∷ pos 9 ∷ pos 3 ∷ pos 1 ∷ []) ≡ Some (pos 7) }
{}
