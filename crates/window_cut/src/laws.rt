// Laws of the definitions, each the contract of a function that does nothing.
ghost use Rattle.std.specs.Prelude.{◌≡◌, ◌<◌, ◌^◌, ◌++◌, [], ◌∷◌, ℕ, true, All, codes, length, map};
ghost use Rattle.std.specs.List.{list_all};
ghost use Rattle.rm_model.specs.Value.{is_among, observed_names, outputs_of, source_names, IsRanked};
ghost use Rattle.rm_model.specs.WellFormed.{IsWellFormed};
ghost use Rattle.rm_model.specs.declared.parts.Model.{Model};
ghost use Rattle.window_cut.specs.Cut.{joined, windows};
ghost use Rattle.window_cut.specs.Inner.Levels.{IsLevelled};
ghost use Rattle.window_cut.specs.Laws.{AreInOrder, FitTogether, IsStandalone, ReadKnown, model_covers, model_outputs};
ghost use Rattle.window_cut.specs.Order.{ordered_covers, post_order};
ghost use Rattle.window_cut.specs.Rows.{first_half, four_gates, second_half};
ghost use Rattle.window_cut.specs.Windows.{window_models};

use rm_model::{ranks_exist, ranks_follow};

/// Windows that are worked out by hand.
pub fn worked_rows()
    ensures order { post_order four_gates ≡ 1 ∷ 3 ∷ 0 ∷ 4 ∷ [] }
    ensures models { window_models 4 0 four_gates ≡ first_half ∷ second_half ∷ [] }
    ensures shifted { map outputs_of (windows 4 1 four_gates)
        ≡ (codes "p" ∷ []) ∷ (codes "t" ∷ codes "z" ∷ []) ∷ (codes "y" ∷ []) ∷ [] }
{}

/// The covers of a ranked model have levels.
pub fn ranked_models_have_levels()
    ensures { (m : Model) → IsWellFormed m → IsRanked m → (level : ℕ → ℕ) × IsLevelled m level }
{
    ranks_follow();
    ranks_exist();
}

/// The windows joined are the covers in post-order, and these are the needed ones in an order in which they can be computed.
pub fn windows_are_ordered()
    ensures joined { (width shift : ℕ) (m : Model) → joined (windows width shift m) ≡ ordered_covers m }
    ensures order { (m : Model) → IsWellFormed m → IsRanked m → AreInOrder m (ordered_covers m) }
{
    ranked_models_have_levels();
}

/// The model of each window stands alone: it is well formed and acyclic, and gives something. Together they have the needed covers; each reads
/// sources and outputs of models before it, and the sources and their outputs have all observed names.
pub fn windows_are_models()
    ensures standalone { (width shift : ℕ) (m : Model) → IsWellFormed m → IsRanked m
        → length (windows width shift m) < 2 ^ 64 → All IsStandalone (window_models width shift m) }
    ensures covers { (width shift : ℕ) (m : Model) → model_covers (window_models width shift m) ≡ ordered_covers m }
    ensures reads { (width shift : ℕ) (m : Model) → IsWellFormed m → IsRanked m → ReadKnown (source_names m) (window_models width shift m) }
    ensures observed { (width shift : ℕ) (m : Model) → IsWellFormed m → IsRanked m
        → list_all (is_among (source_names m ++ model_outputs (window_models width shift m))) (observed_names m) ≡ true }
{
    windows_are_ordered();
}

/// The inputs and outputs of windows fit together.
pub fn windows_fit_together()
    ensures { (width shift : ℕ) (m : Model) → IsWellFormed m → IsRanked m → FitTogether m (windows width shift m) }
{
    windows_are_ordered();
}
