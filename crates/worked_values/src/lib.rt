// A value for every constant of the annex, worked by hand: theorems alone.
#![tactic(auto)]
