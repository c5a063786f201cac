// The worked examples of the format, proved by computation on the definitions of streams, all in one place: specs/Examples.antt.
#![tactic(auto)]

ghost use Rattle.worked.specs.Examples.{FirstTable, Cuts, Resaves, SmallTables, Refusals, Ancestors};

pub fn examples_hold()
    ensures first_table { FirstTable }
    ensures cuts { Cuts }
    ensures resaves { Resaves }
    ensures small_tables { SmallTables }
    ensures refusals { Refusals }
    ensures ancestors { Ancestors }
{}
