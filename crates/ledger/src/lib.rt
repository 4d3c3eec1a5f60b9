// The sheet as a holder of rules: what a run adds rules to before it plans.
//
// A sheet keeps the words of its table, so what it holds can be read as rules and as a table at any time. Its variables are
// the parts that the table declares, and its rules are the table's rows, with coefficient 0 at every variable past the forty
// parts. specs/View.antt says how a table is read so, and that both say the same of every choice of parts.
#![tactic(auto)]

pub mod holder;
mod rows;
pub mod state;
pub mod take;
