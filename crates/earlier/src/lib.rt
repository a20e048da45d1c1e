// The calls with a question that a later request of document 02 answers with yes, and theorems that what they answered otherwise is answered still.
// There is no code here.

#![tactic(auto)]
