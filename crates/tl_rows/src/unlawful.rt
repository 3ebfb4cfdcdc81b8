//! Journals that are not lawful, and one that is lawful and not legal.

ghost use Rattle.std.specs.Prelude.{◌≡◌, ◌∷◌, codes, false, true};
ghost use Rattle.tl_model.specs.Rules.{is_lawful, is_legal};
ghost use Rattle.tl_rows.specs.Refused.{both_done, loaded, reading, start};
ghost use Rattle.tl_rows.specs.Words.{file_of, hashed, header, itself, lose, served};

/// An event that is refused, at the end or before it, and something that is owed at the end.
#[tactic(auto, unfolding(crate::specs::Computing::computing))]
pub fn unlawful()
    ensures lawful { is_lawful (header 2 100 9) (start itself) ≡ true }
    ensures last { is_lawful (header 2 100 9) (lose 0 2 ∷ start itself) ≡ false }
    ensures before_last { is_lawful (header 2 100 9) (lose 0 1 ∷ lose 0 2 ∷ start itself) ≡ false }
    ensures owing { is_lawful (header 2 100 9) (loaded itself) ≡ false }
{}

/// Where bytes are known, more is asked.
#[tactic(auto, unfolding(crate::specs::Computing::computing))]
pub fn illegal()
    ensures lawful { is_lawful (header 2 100 9) (served hashed 0 (file_of 1 0) (codes "x2") ∷ reading hashed) ≡ true }
    ensures wrong_digest { is_legal (header 2 100 9) (served hashed 0 (file_of 1 0) (codes "x2") ∷ reading hashed) ≡ false }
    ensures owing { is_legal (header 2 3 9) (both_done hashed) ≡ false }
{}
