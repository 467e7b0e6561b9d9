// The paper and the tie rule stand in specs/, what is proved of them in proofs/. There is no code here.
#![tactic(auto)]
