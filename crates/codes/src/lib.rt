// What a line says: its code, operands and parameters, decoded, with the refusals 11 and 12. Knows nothing of other lines but how many there are.
#![tactic(auto)]

pub mod operator;
