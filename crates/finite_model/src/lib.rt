// What an integrated model holds: finite numbers only. Theorems over definitions, and no function.
#![tactic(auto)]
