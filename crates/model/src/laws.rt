// The laws of the tree over runs of calls, one function for each.
ghost use Rattle.model.specs.Laws.{StaysSound, ParentsLead, NamesApart, ImageFits, NumbersOnce, LeasesBalance, RefusedKeeps, TopmostCounts, OpenKeeps, FullnessDecided, BranchDecided};

// The tree stays sound.
pub fn trees_stay_sound()
    ensures { StaysSound }
{}

// Every object's parents lead to the root.
pub fn parents_lead_to_the_root()
    ensures { ParentsLead }
{}

// No two objects of a folder have alike names.
pub fn names_stay_apart()
    ensures { NamesApart }
{}

// The tree's image fits onto the device.
pub fn images_fit()
    ensures { ImageFits }
{}

// No number is given twice between two formats.
pub fn numbers_are_given_once()
    ensures { NumbersOnce }
{}

// The leases out are those given less those closed.
pub fn leases_balance()
    ensures { LeasesBalance }
{}

// A refused call leaves state and buffer.
pub fn refusals_keep_all()
    ensures { RefusedKeeps }
{}

// Of several reasons the topmost counts.
pub fn topmost_reason_counts()
    ensures { TopmostCounts }
{}

// A live server's open keeps the tree.
pub fn open_keeps_the_tree()
    ensures { OpenKeeps }
{}

// The test for indexes that cannot be held is right.
pub fn fullness_is_decided()
    ensures { FullnessDecided }
{}

// The test for a folder's own branch is right.
pub fn branches_are_decided()
    ensures { BranchDecided }
{}
