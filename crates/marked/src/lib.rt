// Document 01's marked cases. They are proved of the definitions, so there is no code here: specs/Marked.antt has the list.
#![tactic(auto)]
