ghost use Rattle.pc_num.specs.declared.Frac.{Frac};
ghost use Rattle.pc_model.specs.declared.query.Agg.{Agg};
ghost use Rattle.pc_proof.specs.Form.{IsFormedRatio, IsFormedValue};
ghost use Rattle.pc_check_rules.specs.Fractions.{IsMeasured};

/// Values and ratios of a document in form are what the programs of ends are made for.
#[tactic(auto, using(crate::proofs::Formed::formed_measured, crate::proofs::Formed::ratio_measured))]
pub fn formed_values_are_measured()
    ensures values { (agg : Agg) (value : Frac) → IsFormedValue agg value → IsMeasured value }
    ensures ratios { (ratio : Frac) → IsFormedRatio ratio → IsMeasured ratio }
{}
