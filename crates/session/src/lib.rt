// One UFO server, one recorder and the line between them: what holds of them together. The code is that of `lend` and
// `record`; here are theorems over the definitions that their contracts cite, in specs/ and proofs/, and no function.
#![tactic(auto)]
