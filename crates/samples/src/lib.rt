// The samples of a line as words of the answer, one after the other, and what their verdicts add to the result. That the words have room from an index on
// stays a clause of what writes them: of a type that borrows them to be written nothing would be known once it is gone.
#![tactic(auto)]

pub mod sample;
pub mod tally;
