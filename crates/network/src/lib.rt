// Networks of places and roads as mathematics: paths and distances (Definitions 2.1 and 2.2). No code.
#![tactic(auto)]
