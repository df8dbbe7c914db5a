//! What holds of names in lines. The function does nothing: its contract is the law.
ghost use Rattle.std.specs.Prelude.{◌≡◌, ℕ, List, Option, Some};
ghost use Rattle.os8_dir.specs.Names.{parsed_name};
ghost use Rattle.refusals.specs.Shown.{name_text};

/// A name is shown as it was typed.
#[tactic(auto, using(crate::proofs::NameLemmas::name_as_typed))]
pub fn name_as_typed()
    ensures { (text : List ℕ) (name : ℕ) → parsed_name text ≡ Some name → name_text name ≡ text }
{}
