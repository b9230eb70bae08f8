//! A law of the definitions.
ghost use Rattle.std.specs.Prelude.{◌≡◌, ◌↔◌, ℕ, List, true};
ghost use Rattle.text_view.specs.LikePattern.{Matches};
ghost use Rattle.text_view.specs.Finding.{like};
ghost use Rattle.text_view.specs.declared.like.Part.{Part};

/// The test of LIKE tells whether a text splits into as many pieces as there are parts, each fitting
/// its part.
pub fn like_is_matching()
    ensures { (parts : List Part) (text : List ℕ) → (like parts text ≡ true) ↔ Matches parts text }
{}
