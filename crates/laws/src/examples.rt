//! Small pieces of code, run by the definition.

ghost use Rattle.laws.specs.Examples.{ExamplesRun};

/// Each example runs as its row of the table tells.
pub fn examples_run()
    ensures { ExamplesRun }
{}
