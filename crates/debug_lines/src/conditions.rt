ghost use Rattle.std.specs.Prelude.{◌≡◌, List};
ghost use Rattle.debug_lines.specs.declared.comparisons.Comparison.{Comparison as A_Comparison};

use crate::Comparison;
use std::marker::Model;

/// Comparisons that all must hold; none always holds.
#[derive(Drop)]
pub struct Condition {
    items: Vec<Comparison>,
}

impl Model for Condition {
    ghost Value = { List A_Comparison };

    ghost view = { λ condition. condition.items.items };
}

impl Condition {
    /// The condition of these comparisons.
    pub fn new(items: Vec<Comparison>) -> Condition
        ensures { result ≡ items.items }
    {
        Condition { items }
    }

    /// The comparisons in their order.
    pub fn as_slice(&self) -> &[Comparison]
        ensures { result.now ≡ self.now }
    {
        &self.items
    }
}
