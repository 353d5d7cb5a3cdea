// No code: runs and forged lists computed from the definitions of `drive`, apart from it so that its edits do not pay for them.
#![tactic(auto)]
