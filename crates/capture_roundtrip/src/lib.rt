// A page that was written and is captured off the line is found, and read back: laws over the calls' definitions, and no code.
#![tactic(auto)]
