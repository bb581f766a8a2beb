// Nothing runs here: the laws for signed numbers stand in proofs/Signed.antt.
#![tactic(auto)]
