// What the lines of a table say and what is recorded, without what it means: operators, lines with their lengths, recordings. No code.
#![tactic(auto)]
