// The law of listings, and what the indexes of a tree have and how they change.
#![tactic(auto)]

ghost use Rattle.listings.specs.Changes.{CreatePuts, RemoveTakes, RenameMoves};
ghost use Rattle.listings.specs.Indexes.{FolderTells, RegisterTells};
ghost use Rattle.listings.specs.Listings.{ListingLaw};

// Every listing in every history is complete.
pub fn listings_hold()
    ensures { ListingLaw }
{}

// A folder's index has what lookup finds.
pub fn folders_tell_the_tree()
    ensures { FolderTells }
{}

// The register has each object under its number.
pub fn register_tells_the_tree()
    ensures { RegisterTells }
{}

// A create puts one record into the folder's index and one into the register.
pub fn creates_put_records()
    ensures { CreatePuts }
{}

// A remove takes one record out of each.
pub fn removes_take_records()
    ensures { RemoveTakes }
{}

// A rename takes a record out of one folder's index, puts one into the target's, and replaces the one in the register.
pub fn renames_move_records()
    ensures { RenameMoves }
{}
