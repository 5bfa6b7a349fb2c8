// The formula of one step under an invariant, and the start's test of it: where no assignment makes the formula true, the property holds for ever.
#![tactic(auto)]
