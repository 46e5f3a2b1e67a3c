//! The worked sheets: one table, from the text of each sheet to what its run comes to, computed by the definitions of
//! reading and of the machine. It rests on `sheet`, `machine` and `code`.
#![tactic(auto)]

ghost use Rattle.worked.specs.Rows.{AsTold};
ghost use Rattle.worked.specs.Table.{table};

/// Each sheet of the table reads and runs as the table tells: its bytes, end, steps, and winds entered and left.
pub fn worked_sheets_run_as_told()
    ensures { AsTold table }
{}
