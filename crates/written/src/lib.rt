// What shred writes, and its laws: it is read back place by place, breaks no rule, and means the document. There is no code here.
#![tactic(auto)]
