// The numbers that the documents give, shown of the definitions: laws alone.
#![tactic(auto)]
