// Histories of the running totals, the record's and a host's three numbers: what calls and saved records make of them, one after the other. There
// is no code here.

#![tactic(auto)]
