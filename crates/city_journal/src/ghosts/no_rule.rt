//! The rule of a record that never grows, for the proofs only.
use logbook::Rule;

/// The rule of a record that never grows.
pub struct NoRule;

impl<E> Rule<E, u64> for NoRule {
    ghost use Rattle.std.specs.Prelude.{[]};
    ghost use base.Fml.{ftrue};

    ghost holds = { λ cells log. Unit {0} };

    ghost first = { [] };

    ghost hinted = { λ n log. Unit {0} };

    ghost shows = { λ log. [] };

    ghost keeps = { λ names log. ftrue };

    ghost moves = { λ ask before after answer. Unit {0} };
}
