//! What scripts say of a message that went over a link in memory, or was stopped there.

ghost use Rattle.vhost_promises.specs.Scripts.{TakesACut, StopsByItsCut, PassesNoFault, CountsItsWants};

/// A message that passes a link uses up entries of its script, and none passes an I/O error.
pub fn passes_its_script()
    ensures cut { TakesACut }
    ensures fault { PassesNoFault }
{}

/// A message is stopped by the cause of its script's next I/O error; where it is empty, only by a counted failure of an allocation.
pub fn stops_by_its_script()
    ensures cause { StopsByItsCut }
    ensures wants { CountsItsWants }
{}
