// Laws of the definitions, each the contract of a function that does nothing.
ghost use Rattle.std.specs.Prelude.{◌≡◌, ◌<◌, ◌↔◌, ℕ, Option, List, slice_get, Bool, map, length, [], ◌∷◌, codes, false, true};
ghost use Rattle.rm_model.specs.WellFormed.{driven_names, is_distinct, is_token, IsWellFormed};
ghost use Rattle.rm_model.specs.Ranks.{cover_of, first_without_rank, rank_at, ranks_of, AreRanks};
ghost use Rattle.rm_model.specs.Value.{is_among, source_names, IsConsistent, IsRanked};
ghost use Rattle.rm_base.specs.Words.{Word};
ghost use Rattle.rm_model.specs.declared.parts.Cover.{Cover};
ghost use Rattle.rm_model.specs.declared.parts.Model.{Model};

/// Which words may stand in a text.
pub fn tokens_are()
    ensures name { is_token (codes "$abc[3]") ≡ true }
    ensures high_byte { is_token (128 ∷ 255 ∷ []) ≡ true }
    ensures inner_backslash { is_token (92 ∷ 97 ∷ []) ≡ true }
    ensures last_backslash { is_token (97 ∷ 92 ∷ []) ≡ false }
    ensures empty { is_token [] ≡ false }
    ensures blank { is_token (codes "a b") ≡ false }
    ensures tab { is_token (97 ∷ 9 ∷ []) ≡ false }
    ensures control { is_token (31 ∷ []) ≡ false }
    ensures delete { is_token (97 ∷ 127 ∷ []) ≡ false }
    ensures comment { is_token (codes "a#b") ≡ false }
{}

/// The ranks of a model's covers are the one list in which each follows from the others, and each
/// is below the number of covers.
pub fn ranks_follow()
    ensures length { (m : Model) → length (ranks_of m) ≡ length m.covers }
    ensures follow { (m : Model) → AreRanks m (ranks_of m) }
    ensures only { (m : Model) (ranks : List (Option ℕ)) → AreRanks m ranks → ranks ≡ ranks_of m }
    ensures small { (m : Model) (k n : ℕ) → rank_at (ranks_of m) k ≡ Some n → n < length m.covers }
{}

/// A model whose names have one driver each is ranked exactly where each of its covers has a rank,
/// which is greater than those of the covers that it reads.
pub fn ranks_exist()
    ensures ranked { (m : Model) → is_distinct (driven_names m) ≡ true
        → (IsRanked m ↔ (first_without_rank m ≡ None)) }
    ensures lower { (m : Model) (c : Cover) (x : Word) (k p j n : ℕ) → slice_get m.covers k ≡ Some c
        → slice_get c.inputs p ≡ Some x → cover_of m.covers x ≡ Some j
        → rank_at (ranks_of m) k ≡ Some n → ((i : ℕ) × ((rank_at (ranks_of m) j ≡ Some i) × (i < n))) }
{}

/// A ranked model has exactly one consistent valuation for each assignment of its sources.
pub fn one_valuation()
    ensures exists { (m : Model) (values : List Bool) → IsWellFormed m → IsRanked m
        → length values ≡ length (source_names m)
        → ((v : Word → Bool) × (IsConsistent m v × (map v (source_names m) ≡ values))) }
    ensures only { (m : Model) (v w : Word → Bool) (x : Word) → IsWellFormed m → IsRanked m
        → IsConsistent m v → IsConsistent m w
        → map v (source_names m) ≡ map w (source_names m)
        → is_among (driven_names m) x ≡ true → v x ≡ w x }
{}
