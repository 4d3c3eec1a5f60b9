// How the steps from a rule to the reformulated price fit together. The definitions are in specs/; each contract below is a
// theorem about them.
#![tactic(auto)]

ghost use Rattle.core_laws.specs.Steps.{FloorCoresWeigh, FloorCoresGain, KeptRulesSuit, RulesHandedOut};

// Where the weighted literals are assumed false, every literal of the core weighs something.
pub fn floor_cores_weigh()
    ensures { FloorCoresWeigh }
{}

// Where these literals break the rule, a core that can be met has a count rule that gains.
pub fn floor_cores_gain()
    ensures { FloorCoresGain }
{}

// The count rule that is kept of a core suits the price that it was found with, within the limits of numbers.
pub fn kept_rules_suit()
    ensures { KeptRulesSuit }
{}

// The rules that a reformulation hands out are those that its promise speaks of.
pub fn rules_are_handed_out()
    ensures { RulesHandedOut }
{}
