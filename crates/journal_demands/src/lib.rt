// No code: what was asked of the journal, as theorems over the definitions of `journal`, and the laws that only they use.
#![tactic(auto)]
