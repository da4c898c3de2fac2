// Document 02, Ask 9: compaction as definitions, and what is shown of them. The code is in `compacting`. No code here.
#![tactic(auto)]
