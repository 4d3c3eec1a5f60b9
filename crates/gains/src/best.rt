// The rounds one after another, and the count rule that is kept.
ghost use Rattle.rules.specs.Rule.{at};
ghost use Rattle.gains.specs.Gains.{Found, BestOf};

use super::kinds::{CountRule, Round};
use super::rounds::{Weighted, better};
use cores::core_of::CannotBeMet;
use counts::order::Ranked;
use rules::term::Rule;

// The first round of greatest gain. Each round takes four walks over the variables; there is one for every weight until the
// count is 0.
fn greatest_round(core: &Ranked, price: &[i32; 80]) -> Option<Round>
    ensures { Found core.now.rule.now (at price.now) result }
{
    let weighted = Weighted {
        core: core.rule,
        price,
    };
    let mut best = None;
    let mut members = weighted.literals();
    while let Some(place) = weighted.lightest(&members) {
        let count = core.count_members(&members);
        if count == 0 {
            break;
        }
        let weight = weighted.weight_at(place);
        best = Some(better(best, Round { weight, count }));
        members = weighted.weaken(&members, place);
    }
    best
}

// The count rule of greatest gain that follows from a core, under a price; None where its degree is 0, so that it says nothing.
pub fn best_count_rule(core: &Rule, price: &[i32; 80]) -> Result<Option<CountRule>, CannotBeMet>
    ensures { BestOf core.now (at price.now) result }
{
    let ranked = Ranked::of(core)?;
    Ok(greatest_round(&ranked, price).map(|round| Weighted { core, price }.count_rule(round)))
}
