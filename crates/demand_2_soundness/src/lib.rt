// That every call keeps sound tables sound: proofs alone, no code.
#![tactic(auto)]
