// The documents' worked cases, computed on the definitions: tables of calls and what they answer, each covered by one theorem. There is no code here.

#![tactic(auto)]
