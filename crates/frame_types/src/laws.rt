//! Laws of the definitions in `specs/`. The functions do nothing; a caller whose proof needs a law calls its function.
ghost use Rattle.frame_types.specs.Laws.{FramesLaw, FaultLaw, FramesAreGiven, FaultsHaveCauses, TablesAreSpelled};
ghost use Rattle.frame_types.specs.Examples.{WorkedFrames};

/// The frames of a method stand at starts of its instructions, which rise, and each has all of the method's local
/// variables, with Top behind each Long, and no more operands than there is room for.
pub fn frames_stand_at_instructions()
    ensures { FramesLaw }
{}

/// The place of a fault is the least: the entries before it give frames at smaller places. Where there are no entries, or
/// there is no first frame, it is 0.
pub fn faults_stand_at_the_least_place()
    ensures { FaultLaw }
{}

/// A method has frames exactly where its entries give them, one after another; and the rule on the StackMapTable fails at a
/// place exactly where one of its causes holds there.
pub fn frames_are_given()
    ensures frames { FramesAreGiven }
    ensures faults { FaultsHaveCauses }
{}

/// Bytes are a StackMapTable of these entries exactly where they spell it.
pub fn tables_are_spelled()
    ensures { TablesAreSpelled }
{}

/// The frames of small methods, computed.
pub fn worked_frames()
    ensures { WorkedFrames }
{}
