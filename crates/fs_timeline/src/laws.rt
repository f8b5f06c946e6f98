//! What holds of the definitions. Each function's contract is a law, and its body is empty.

ghost use Rattle.fs_timeline.specs.Laws.{LawfulWithoutTheLast, WellFormedAppended, LawfulAppended, LawfulIsLawful, FaultsAreFirst};

/// A lawful timeline stays lawful when its last entry is taken away.
pub fn lawful_without_the_last()
    ensures { LawfulWithoutTheLast }
{}

/// With one more entry a timeline is well formed exactly where it was so before and the entry may come next.
pub fn well_formed_appended()
    ensures { WellFormedAppended }
{}

/// With one more entry a timeline is lawful exactly where it was so before, the entry may come next, and a reply in it
/// is the one that is due.
pub fn lawful_appended()
    ensures { LawfulAppended }
{}

/// The verdict is `Lawful` exactly on lawful timelines.
pub fn lawful_is_lawful()
    ensures { LawfulIsLawful }
{}

/// A fault names the first entry with which the entries up to it are not lawful.
pub fn faults_are_first()
    ensures { FaultsAreFirst }
{}
