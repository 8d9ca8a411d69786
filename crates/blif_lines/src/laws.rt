// The layout of texts that are worked out by hand.
ghost use Rattle.std.specs.Prelude.{◌≡◌, [], ◌∷◌, ◌++◌, codes, map, None};
ghost use Rattle.blif_lines.specs.Layout.{Logical, layout, lines_of, BadByteAt, OpenJoinAt};

/// Does nothing: its contract has the rows.
pub fn worked_rows()
    ensures empty { layout [] ≡ [] }
    ensures joined { lines_of (codes "a \\ \r\nb # c \\\n\n d") ≡ (codes "a" ∷ codes "b" ∷ []) ∷ (codes "d" ∷ []) ∷ [] }
    ensures comment { lines_of (codes "a\\# c\nb") ≡ (codes "a" ∷ codes "b" ∷ []) ∷ [] }
    ensures two { map (λ (l : Logical). l.flaw) (layout (codes "x \\\\\nb\n")) ≡ Some (BadByteAt (record { line = 1; column = 3 })) ∷ [] }
    ensures inner { map (λ (l : Logical). l.flaw) (layout (codes "a\\ b")) ≡ Some (BadByteAt (record { line = 1; column = 2 })) ∷ [] }
    ensures last { map (λ (l : Logical). l.flaw) (layout (codes "a\n\n \\\n")) ≡ None ∷ None ∷ Some (OpenJoinAt (record { line = 3; column = 2 })) ∷ [] }
    ensures control { map (λ (l : Logical). l.flaw) (layout (codes "a\\\n\tb" ++ 1 ∷ 127 ∷ [])) ≡ Some (BadByteAt (record { line = 2; column = 3 })) ∷ [] }
    ensures high { map (λ (l : Logical). l.flaw) (layout (128 ∷ 255 ∷ 35 ∷ 0 ∷ 10 ∷ [])) ≡ None ∷ [] }
{}
