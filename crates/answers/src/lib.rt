// What an answer says, and all that the engine leaves, as mathematics: demands 1 to 3 on definitions. No code.
#![tactic(auto)]
