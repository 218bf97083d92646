// Nothing runs here: what is proved of the jobs together stands in proofs/Demands.antt.
#![tactic(auto)]
