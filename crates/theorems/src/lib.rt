// The theorems over runs of the machine's own calls: specs/ states them, proofs/ proves them. There is no function here.

#![tactic(auto)]
