// Mathematics that knows nothing of networks, formulas or words: tests as facts, sums and greatest numbers, lists element by element, and sets that
// shrink until they rest. No code.
#![tactic(auto)]
