// What holds of every table, whatever the graph.
ghost use Rattle.graph.specs.Theorems.{OneTable, ReachedStands, ReadBackStands, LeastStands};

use cost::Cost;

// There is one table over the same edges.
pub fn one_table_stands<C: Cost>()
    ensures { OneTable C.Cost.cost }
{}

// A place is reached exactly where a path ends at it.
pub fn reached_stands<C: Cost>()
    ensures { ReachedStands C.Cost.cost }
{}

// The list read back from a reached place is a path of its cost.
pub fn read_back_stands<C: Cost>()
    ensures { ReadBackStands C.Cost.cost }
{}

// No path costs less than the table says.
pub fn least_stands<C: Cost>()
    ensures { LeastStands C.Cost.cost }
{}
