// The customer's three demands, each one record over files: definitions and theorems alone.
#![tactic(auto)]
