// The session of room `session`, run by a C program through hinurapay.h: what holds of the one holds of the other. The code is
// that of `hinurapay`; here are theorems over the contracts of its functions, in specs/ and proofs/, and no function.
#![tactic(auto)]
