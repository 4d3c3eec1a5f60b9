// Backtracking, without code: what is passed, what is left, and why the search is complete. The definitions are in specs/.
#![tactic(auto)]
