// Document 01's whole case through the definitions, byte for byte, and a case for each refusal but 1: theorems alone.
#![tactic(auto)]
