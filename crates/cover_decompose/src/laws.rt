// Laws of the definitions, each the contract of a function that does nothing.
ghost use Rattle.std.specs.Prelude.{◌≡◌, ◌≢◌, ◌+◌, ◌<◌, ◌≤◌, ◌↔◌, ℕ, [], ◌∷◌, All, Option, None, Some, Contains, length, slice_get, true, false};
ghost use Rattle.gate_net.specs.Net.{IsGate, IsWellFormed as IsWellFormedNet, Reads, node_at, wire_count};
ghost use Rattle.rm_model.specs.Ranks.{first_without_rank};
ghost use Rattle.rm_model.specs.Value.{observed_names, source_names};
ghost use Rattle.rm_model.specs.WellFormed.{IsWellFormed};
ghost use Rattle.rm_model.specs.declared.parts.Cover.{Cover};
ghost use Rattle.cover_decompose.specs.Bounds.{WiresAreBounded};
ghost use Rattle.cover_decompose.specs.Needed.{IsNeeded, ReadsBefore, taken};
ghost use Rattle.cover_decompose.specs.Decomposition.{net_of_model};
ghost use Rattle.cover_decompose.specs.Count.{decomposed};
ghost use Rattle.cover_decompose.specs.Parity.{parity_ending};
ghost use Rattle.cover_decompose.specs.Spelled.{plain_decomposed, plain_net, spelled};
ghost use Rattle.cover_decompose.specs.StandsFor.{HasPoints, StandsFor};
ghost use Rattle.cover_decompose.specs.Rows.{r2, r3, r5, mux, constant, dashed, differ, agree, twice, net_with, and_gate, or_gate, not_gate, xor_gate};
ghost use Rattle.rm_model.specs.declared.parts.Model.{Model};

use rm_model::{ranks_exist, ranks_follow};

/// Decompositions that are worked out by hand.
pub fn worked_rows()
    ensures r2 { net_of_model r2 ≡ net_with r2 (and_gate (2 ∷ 3 ∷ []) ∷ or_gate (2 ∷ 4 ∷ []) ∷ []) (5 ∷ []) }
    ensures r2_wires { decomposed r2 ≡ 4 }
    ensures r3 { net_of_model r3 ≡ net_with r3 (and_gate (2 ∷ 3 ∷ []) ∷ and_gate (2 ∷ 4 ∷ []) ∷ or_gate (6 ∷ 7 ∷ []) ∷ and_gate (8 ∷ 5 ∷ []) ∷ []) (9 ∷ []) }
    ensures r3_wires { decomposed r3 ≡ 8 }
    ensures r5 { net_of_model r5 ≡ net_with r5 (not_gate 2 ∷ not_gate 3 ∷ and_gate (4 ∷ 5 ∷ []) ∷ not_gate 6 ∷ []) (7 ∷ []) }
    ensures r5_wires { decomposed r5 ≡ 5 }
    ensures mux { net_of_model mux ≡ net_with mux (not_gate 2 ∷ and_gate (5 ∷ 3 ∷ []) ∷ and_gate (2 ∷ 4 ∷ []) ∷ and_gate (3 ∷ 4 ∷ []) ∷ or_gate (6 ∷ 7 ∷ 8 ∷ []) ∷ []) (9 ∷ []) }
    ensures mux_wires { decomposed mux ≡ 10 }
    ensures zero { net_of_model (constant []) ≡ net_with (constant []) [] (0 ∷ []) }
    ensures one { net_of_model (constant ([] ∷ [])) ≡ net_with (constant ([] ∷ [])) [] (1 ∷ []) }
    ensures ones { net_of_model (constant ([] ∷ [] ∷ [])) ≡ net_with (constant ([] ∷ [] ∷ [])) (or_gate (1 ∷ 1 ∷ []) ∷ []) (2 ∷ []) }
    ensures ones_wires { decomposed (constant ([] ∷ [] ∷ [])) ≡ 2 }
    ensures dashed { net_of_model dashed ≡ net_with dashed (and_gate (2 ∷ 3 ∷ []) ∷ []) (2 ∷ []) }
    ensures dashed_wires { decomposed dashed ≡ 2 }
    ensures differ { net_of_model (differ true) ≡ net_with (differ true) (xor_gate 2 3 ∷ []) (4 ∷ []) }
    ensures differ_wires { decomposed (differ true) ≡ 2 }
    ensures agree { net_of_model (agree true) ≡ net_with (agree true) (xor_gate 2 3 ∷ not_gate 4 ∷ []) (5 ∷ []) }
    ensures agree_wires { decomposed (agree true) ≡ 3 }
    ensures not_agree { net_of_model (agree false) ≡ net_with (agree false) (xor_gate 2 3 ∷ []) (4 ∷ []) }
    ensures not_agree_wires { decomposed (agree false) ≡ 2 }
    ensures not_differ { net_of_model (differ false) ≡ net_with (differ false) (xor_gate 2 3 ∷ not_gate 4 ∷ []) (5 ∷ []) }
    ensures not_differ_wires { decomposed (differ false) ≡ 3 }
    ensures plain_differ { plain_net (differ true) ≡ net_with (differ true) (not_gate 3 ∷ and_gate (2 ∷ 4 ∷ []) ∷ not_gate 2 ∷ and_gate (6 ∷ 3 ∷ []) ∷ or_gate (5 ∷ 7 ∷ []) ∷ []) (8 ∷ []) }
    ensures plain_differ_wires { plain_decomposed (differ true) ≡ 8 }
    ensures twice { net_of_model twice ≡ net_with twice (not_gate 2 ∷ and_gate (2 ∷ 4 ∷ []) ∷ and_gate (4 ∷ 2 ∷ []) ∷ or_gate (5 ∷ 6 ∷ []) ∷ []) (7 ∷ []) }
    ensures twice_wires { decomposed twice ≡ 7 }
{}

/// The decomposition of a well-formed model with ranks stands for it.
pub fn decompositions_stand()
    ensures stands { (m : Model) → IsWellFormed m → first_without_rank m ≡ None → StandsFor (net_of_model m) m }
    ensures points { (m : Model) → IsWellFormed m → first_without_rank m ≡ None → HasPoints (net_of_model m) m }
    ensures wires { (m : Model) → IsWellFormed m → first_without_rank m ≡ None → wire_count (net_of_model m) ≡ decomposed m }
{
    ranks_follow();
}

/// The net of every decomposition is well formed, its gates have the numbers after the sources, with no gap, and read lower numbers.
pub fn decompositions_are_formed()
    ensures formed { (m : Model) → IsWellFormedNet (net_of_model m) }
    ensures gates { (m : Model) (x : ℕ) → IsGate (net_of_model m) x → 2 + length (source_names m) ≤ x }
    ensures no_gaps { (m : Model) (x : ℕ) → x < length (net_of_model m).nodes → node_at (net_of_model m) x ≢ None }
    ensures order { (m : Model) (y p x : ℕ) → Reads (net_of_model m) y p x → x < y }
{}

/// A model without parity covers has the sources and observed names of its own, and is well formed and ranked where that is.
pub fn spelled_models_stay()
    ensures plain { (m : Model) → All (λ (c : Cover). parity_ending c ≡ None) (spelled m).covers }
    ensures sources { (m : Model) → source_names (spelled m) ≡ source_names m }
    ensures observed { (m : Model) → observed_names (spelled m) ≡ observed_names m }
    ensures covers { (m : Model) → length (spelled m).covers ≡ length m.covers }
    ensures formed { (m : Model) → IsWellFormed m → IsWellFormed (spelled m) }
    ensures ranked { (m : Model) → IsWellFormed m → first_without_rank m ≡ None → first_without_rank (spelled m) ≡ None }
{
    ranks_exist();
}

/// The decomposition without Xor gates of a well-formed model with ranks stands for it.
pub fn plain_nets_stand()
    ensures stands { (m : Model) → IsWellFormed m → first_without_rank m ≡ None → StandsFor (plain_net m) m }
    ensures wires { (m : Model) → IsWellFormed m → first_without_rank m ≡ None → wire_count (plain_net m) ≡ plain_decomposed m }
{
    spelled_models_stay();
    decompositions_stand();
}

/// That net is well formed too, its gates have the numbers after the sources, with no gap, and read lower numbers.
pub fn plain_nets_are_formed()
    ensures formed { (m : Model) → IsWellFormedNet (plain_net m) }
    ensures gates { (m : Model) (x : ℕ) → IsGate (plain_net m) x → 2 + length (source_names m) ≤ x }
    ensures no_gaps { (m : Model) (x : ℕ) → x < length (plain_net m).nodes → node_at (plain_net m) x ≢ None }
    ensures order { (m : Model) (y p x : ℕ) → Reads (plain_net m) y p x → x < y }
{
    decompositions_are_formed();
}

/// The covers taken are those whose output is needed, and each reads sources and the outputs of covers before it.
pub fn needed_covers_are_taken()
    ensures taken { (m : Model) (c : Cover) → IsWellFormed m → first_without_rank m ≡ None → Contains (taken m) c ↔ (Contains m.covers c × IsNeeded m c.output) }
    ensures order { (m : Model) (j : ℕ) (d : Cover) → IsWellFormed m → first_without_rank m ≡ None → slice_get (taken m) j ≡ Some d → ReadsBefore m j d }
{
    ranks_follow();
}

/// A decomposition has no more wires than the rows and literals of the model allow.
pub fn wires_are_bounded()
    ensures { WiresAreBounded }
{}
