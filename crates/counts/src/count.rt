// The least number of members of a set that reach a rule's degree.
ghost use Rattle.std.specs.Prelude.{◌≡◌, ◌-◌, ◌<◌, ◌≤◌};
ghost use Rattle.rules.specs.Rule.{at};
ghost use Rattle.rules.specs.Terms.{coefficient};
ghost use Rattle.counting.specs.Counting.{sum_outside, Least};
ghost use Rattle.counting.specs.Order.{flag};
ghost use Rattle.counts.specs.Counts.{CountOf};

use super::order::{Ranked, size_at};
use rules::term::{Rule, WIDTH};

// The coefficients outside a set, together.
fn sum_outside(coefficients: &[i32; 80], members: &[bool; 80]) -> u64
    ensures { result ≡ sum_outside 80 (at coefficients.now) (flag members.now) }
{
    coefficients
        .iter()
        .zip(members)
        .filter(|(_, member)| !**member)
        .map(|(coefficient, _)| u64::from(coefficient.unsigned_abs()))
        .sum()
}

// The degree that is left when every literal outside the set is weakened.
pub fn lowered(rule: &Rule, members: &[bool; 80]) -> u64
    ensures { result ≡ rule.now.degree - sum_outside 80 (coefficient rule.now) (flag members.now) }
{
    u64::from(rule.degree).saturating_sub(sum_outside(&rule.coefficients, members))
}

impl<'a> Ranked<'a> {
    // The least number of members that reach the degree, with everything outside the set true: a walk along the order takes
    // members until the lowered degree is reached.
    pub fn count_members(&self, members: &[bool; 80]) -> u32
        ensures least { Least 80 (coefficient self.now.rule.now) self.now.rule.now.degree (flag members.now) result }
        ensures bound { result ≤ 80 }
    {
        let degree = lowered(self.rule, members);
        let mut sum: u64 = 0;
        let mut count = 0;
        for variable in &self.order {
            if degree <= sum {
                return count;
            }
            if members[*variable] {
                sum += u64::from(size_at(&self.rule.coefficients, *variable));
                count += 1;
            }
        }
        count
    }
}

// The least number of terms whose coefficients reach the degree; None where all of them together miss it.
pub fn least_count(rule: &Rule) -> Option<u32>
    ensures { CountOf rule.now result }
{
    let ranked = Ranked::of(rule).ok()?;
    Some(ranked.count_members(&[true; WIDTH]))
}
