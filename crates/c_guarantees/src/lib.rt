// What a host in C relies on of the answering call, as theorems from its contract: they stand in specs/.
#![tactic(auto)]
