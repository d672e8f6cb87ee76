// What the comparison of two exact times means, roots included: definitions and theorems alone.
#![tactic(auto)]
