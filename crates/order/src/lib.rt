// What is shown of books whose commands stand in another order (document 02, Q-2): laws of what `total` of the crate `survey` answers, and no routine.
#![tactic(auto)]
