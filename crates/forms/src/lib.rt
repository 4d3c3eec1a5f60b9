// The forms of a grammar and their laws stand in specs/ and proofs/. Code that reads a text says in its contract which
// form it has read; there is no code here.
#![tactic(auto)]
