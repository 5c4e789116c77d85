// Words that the definitions of every part share. No code.
#![tactic(auto)]
