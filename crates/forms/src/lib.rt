// Normal form: its laws. What is written means what was meant, and two documents mean the same exactly when their normal
// forms are the same bytes. There is no code here.
#![tactic(auto)]
