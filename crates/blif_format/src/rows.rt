//! Texts that are worked out by hand.
ghost use Rattle.std.specs.Prelude.{◌≡◌, [], ◌∷◌, codes, None};
ghost use Rattle.blif_lines.specs.Layout.{lines_of};
ghost use Rattle.blif_format.specs.FirstFault.{first_fault};
ghost use Rattle.blif_format.specs.Rows.{at, clock_text, cycle_text, found_lines, found_text, latch_model, latch_text, nor_model, nor_text, third_line, with_row_line};
ghost use Rattle.blif_format.specs.Text.{text_of};
ghost use Rattle.blif_format.specs.declared.refusal.FaultKind.TheVariants.{NoModel, RowLength, RowCharacter, Undriven, NoRank, BadLatchWord, MissingWord, ExtraWord, OpenJoin, Unsupported, UnknownCommand, DoubleDriven, DoubleOutput, MixedCover, RowOutsideCover, AfterEnd};

/// The definitions give the texts and the first faults that were worked out by hand.
pub fn worked_rows()
    ensures nor { text_of nor_model ≡ nor_text }
    ensures latches { text_of latch_model ≡ latch_text }
    ensures nor_read { first_fault nor_text ≡ None }
    ensures latches_read { first_fault latch_text ≡ None }
    ensures empty { first_fault [] ≡ at NoModel 1 1 }
    ensures row_length { first_fault (with_row_line (codes "1 1")) ≡ at RowLength 5 1 }
    ensures row_character { first_fault (with_row_line (codes "12 1")) ≡ at RowCharacter 5 2 }
    ensures undriven { first_fault (cycle_text []) ≡ at Undriven 3 10 }
    ensures cycle { first_fault (cycle_text (codes ".inputs u" ∷ [])) ≡ at NoRank 4 1 }
    ensures latch_type { first_fault (third_line (codes ".latch a q xx c")) ≡ at BadLatchWord 3 12 }
    ensures latch_short { first_fault (third_line (codes ".latch a")) ≡ at MissingWord 3 1 }
    ensures latch_long { first_fault (third_line (codes ".latch a q re c 0 1")) ≡ at ExtraWord 3 19 }
    ensures open_join { first_fault (third_line (codes ".inputs a \\")) ≡ at OpenJoin 3 11 }
    ensures unsupported { first_fault (third_line (codes ".exdc")) ≡ at Unsupported 3 1 }
    ensures found { lines_of found_text ≡ found_lines }
    ensures found_read { first_fault found_text ≡ None }
    ensures clock_input { first_fault (clock_text (codes ".outputs z") []) ≡ None }
    ensures driven_twice { first_fault (clock_text (codes ".outputs z") (codes ".names a" ∷ [])) ≡ at DoubleDriven 7 8 }
    ensures listed_twice { first_fault (clock_text (codes ".outputs z z") []) ≡ at DoubleOutput 4 12 }
    ensures mixed { first_fault (clock_text (codes ".outputs z") (codes "0 0" ∷ [])) ≡ at MixedCover 7 3 }
    ensures after_end { first_fault (clock_text (codes ".outputs z") (codes ".end" ∷ codes "0 0" ∷ [])) ≡ at AfterEnd 8 1 }
    ensures row_outside { first_fault (third_line (codes "1 1")) ≡ at RowOutsideCover 3 1 }
    ensures unknown { first_fault (third_line (codes ".subcircuit")) ≡ at UnknownCommand 3 1 }
{}
