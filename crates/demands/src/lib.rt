// No code: what the firm asked for, as theorems over the definitions of `layout`, and the laws that only they use.
#![tactic(auto)]
