// What a junction file is, field by field, and that a file is taken exactly where it is that: definitions and theorems alone.
#![tactic(auto)]
