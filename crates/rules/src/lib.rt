// Document 01 as definitions, and what is shown of them. No code.
#![tactic(auto)]
