// The replay of a log that comes part by part: definitions in specs/, that the parts' texts are the whole log's in proofs/.
#![tactic(auto)]
