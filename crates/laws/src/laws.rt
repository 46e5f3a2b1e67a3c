//! The laws, one function for each: the check asks for the proof of what a contract says.

ghost use Rattle.laws.specs.Limits.{LimitsOnlyEnd};
ghost use Rattle.laws.specs.Courses.{CoursesAgree, PortionsJoin};
ghost use Rattle.laws.specs.Counts.{CountsConserved, CountsWithinSteps, AllNamesMade, WindsBalanced};
ghost use Rattle.laws.specs.OneShot.{OneShotOnce};
ghost use Rattle.laws.specs.Rows.{RowsJoined};
ghost use Rattle.laws.specs.Reached.{LimitsKept, NeverReached, RightWinds};

/// Limits change nothing but where a limit ends a run.
pub fn limits_only_end()
    ensures { LimitsOnlyEnd }
{}

/// Courses of steps from one state agree, whatever their limits, as far as both have come.
pub fn courses_agree()
    ensures { CoursesAgree }
{}

/// A course in portions is the course in one.
pub fn portions_join()
    ensures { PortionsJoin }
{}

/// Every name made was used, was forgotten or is held, and every wind entered was left or is in force.
pub fn counts_conserved()
    ensures { CountsConserved }
{}

/// No count passes the steps that were made, and those never pass the most that a run can make.
pub fn counts_within_steps()
    ensures { CountsWithinSteps }
{}

/// Every name that stands anywhere was made by the run.
pub fn all_names_made()
    ensures { AllNamesMade }
{}

/// A wind in force was entered once more than it was left, and any other as often.
pub fn winds_balanced()
    ensures { WindsBalanced }
{}

/// What is current, held and saved keeps within the limits.
pub fn limits_kept()
    ensures { LimitsKept }
{}

/// What the definition has for want of a wind, a place or a name is never met.
pub fn never_reached()
    ensures { NeverReached }
{}

/// But for throws, the winds in force are those whose bodies are running; a throw ends only with those that were saved.
pub fn right_winds()
    ensures { RightWinds }
{}

/// A one-shot continuation comes back at most once: its Mark uses it up, and so does a throw to it.
pub fn one_shot_once()
    ensures { OneShotOnce }
{}

/// Two stores' held lists and a run's own flags, joined row by row, are the machine's held names, whatever is done to all three.
pub fn rows_joined()
    ensures { RowsJoined }
{}
