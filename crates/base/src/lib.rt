// Definitions and laws that the other crates share: functions with one value changed, counts, tests of every
// number below a bound, the search going round, functions below a bound as lists. No code.
#![tactic(auto)]
