// Typed rules: no code, but what texts of them read as, and what they mean.
#![tactic(auto)]
