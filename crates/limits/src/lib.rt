// Installations with different largest numbers of lines: laws over the calls' definitions, and no code.
#![tactic(auto)]
