// No code: what the firm asked for, of the earlier block format by itself, as theorems over the definitions of `layout_v1`, and the laws that only they use.
#![tactic(auto)]
