//! Which priority has its turn before another.

ghost use Rattle.std.specs.Prelude.{◌≡◌, ℕ, ◌+◌, ◌*◌, ◌^◌, ◌<◌, ◌==◌, if◌then◌else◌};
ghost use Rattle.tl_model.specs.Past.{Past};
ghost use Rattle.tl_model.specs.Plan.{claims as claims_of, got_less, has_turn_before};
ghost use Rattle.tl_prio.specs.Data.{HasClaims};

use tl_model::OrderRule;
use tl_types::{PRIO_LIMIT, Prio};

/// How many priorities there are.
pub(crate) const PRIO_COUNT: usize = PRIO_LIMIT as usize + 1;

/// By which rule priorities take turns, and how many claims each has had.
#[derive(Clone, Copy, Debug)]
pub struct Turns {
    pub rule: OrderRule,
    pub claims: [u64; PRIO_COUNT],
}

impl Turns {
    /// No priority has had a claim.
    pub(crate) fn new(rule: OrderRule) -> Turns
        ensures rule { result.rule ≡ rule }
        ensures claims { HasClaims result (λ p. 0) }
    {
        Turns {
            rule,
            claims: [0; PRIO_COUNT],
        }
    }

    /// Counts a claim of a record of this priority.
    pub(crate) fn claimed(&mut self, prio: Prio)
        ensures rule { self.new.rule ≡ self.old.rule }
        ensures claims { (claims : ℕ → ℕ) → HasClaims self.old claims → claims prio + 1 < 2 ^ 64 →
            HasClaims self.new (λ p. if prio == p then claims p + 1 else claims p) }
    {
        let count = &mut self.claims[usize::from(prio.get())];
        *count = count.saturating_add(1);
    }

    /// Whether one priority has its turn before another.
    pub(crate) fn has_turn_before(&self, p: Prio, q: Prio) -> bool
        ensures { (past : Past) → HasClaims self.now (claims_of past) →
            result ≡ has_turn_before self.now.rule past p q }
    {
        match self.rule {
            OrderRule::Strict => q.get() < p.get(),
            OrderRule::Shares => {
                self.got_less(p, q) || (!self.got_less(q, p) && q.get() < p.get())
            }
        }
    }

    // Whether one priority got less of its share than another.
    fn got_less(&self, p: Prio, q: Prio) -> bool
        ensures { (past : Past) → HasClaims self.now (claims_of past) → result ≡ got_less past p q }
    {
        crossed(self.count(p), q) < crossed(self.count(q), p)
    }

    // How many claims the priority has had.
    fn count(&self, prio: Prio) -> u64
        ensures { (claims : ℕ → ℕ) → HasClaims self.now claims → result ≡ claims prio }
    {
        self.claims[usize::from(prio.get())]
    }
}

// One side of a comparison of fractions, `(claims + 1) / (priority + 1)`: the upper number of one by the
// lower of the other.
fn crossed(claims: u64, prio: Prio) -> u128
    ensures { result ≡ (claims + 1) * (prio + 1) }
{
    (u128::from(claims) + 1) * (u128::from(prio.get()) + 1)
}
