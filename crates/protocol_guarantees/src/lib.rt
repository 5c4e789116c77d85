// What a customer relies on, as theorems about `answers`: they stand in specs/.
#![tactic(auto)]
