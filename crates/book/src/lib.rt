// The starred entries of the specimen book, in one table under one claim. There is no function here: the table is in specs/, the claim in
// proofs/.
#![tactic(auto)]
