// What a place of a lawful row is rebuilt to, read off its bytes, and its laws: it is the normal form of what the place means.
// There is no code here.
#![tactic(auto)]
