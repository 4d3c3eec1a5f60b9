// What a sheet means: a written rule or price and the words of the table say the same of every choice. The definitions
// are in specs/; the contract below is the theorem.
#![tactic(auto)]

ghost use Rattle.meaning.specs.Means.{TableMeans, TableSound};

// A choice meets the rows of a sheet's table exactly when it meets every written rule over the integers, and its price by
// the table is the value of the written price sum.
pub fn table_means_the_sheet()
    ensures { TableMeans }
{}

// The table of a sheet has the layout of a table, so that the check of a table that is handed in accepts it.
pub fn table_has_the_layout()
    ensures { TableSound }
{}
