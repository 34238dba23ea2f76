//! Laws of lists of versions, each the contract of a function.
ghost use Rattle.version_lists.specs.Laws.{OrderIsAPermutation, OrderRises, OrderLeavesWhatRises, OrderKeepsChanges, RisingListsAgree};
ghost use Rattle.version_lists.specs.Laws.{ClimbsEnd, ObjectsHaveAllVersions, ObjectsHaveEachOnce, ObjectsAreTrees, ObjectsRise, FormingIsFixed};
ghost use Rattle.version_lists.specs.Laws.{TreesAreLinked, TreesAreFormed, RemovingSplitsNone};
ghost use Rattle.version_lists.specs.Laws.{AllAreListedOnce, FirstIsListedFirst};
ghost use Rattle.version_lists.specs.Laws.{FreezesAreListed, DropIsListed, BranchIsListed, OneIsLeft};
ghost use Rattle.version_lists.specs.Laws.{CreatingKeepsLinks, EditingKeepsLinks, FreezingKeepsLinks, DerivingKeepsLinks, RemovingKeepsLinks};
ghost use Rattle.version_lists.specs.Laws.{EditElsewhere, FreezeElsewhere, DeriveElsewhere, RemoveElsewhere};
ghost use Rattle.version_lists.specs.Laws.{CreatedIsEmpty, EditedIsChanged, FreezeIsACopy, DerivedIsACopy, RemovedIsGone};
ghost use Rattle.version_lists.specs.Laws.{CreatingKeepsOthers, EditingKeepsOthers, FreezingKeepsOthers, DerivingKeepsOthers, RemovingKeepsOthers};
ghost use Rattle.version_lists.specs.Laws.{CreatingKeepsFrozen, EditingKeepsFrozen, FreezingKeepsFrozen, DerivingKeepsFrozen, RemovingKeepsFrozen};

/// Versions put in order of their numbers. It does nothing: its contract is the law.
pub fn order_of_numbers()
    ensures same { OrderIsAPermutation }
    ensures rises { OrderRises }
    ensures left { OrderLeavesWhatRises }
    ensures changes { OrderKeepsChanges }
    ensures agree { RisingListsAgree }
{}

/// The objects that linked versions form: they have all of them and no other, each is a tree, and they stand in order. It does nothing: its contract
/// is the law.
pub fn objects_of_versions()
    ensures climbs { ClimbsEnd }
    ensures all { ObjectsHaveAllVersions }
    ensures once { ObjectsHaveEachOnce }
    ensures trees { ObjectsAreTrees }
    ensures rise { ObjectsRise }
    ensures fixed { FormingIsFixed }
{}

/// The versions of objects that are trees are linked, and form these objects. It does nothing: its contract is the law.
pub fn versions_of_objects()
    ensures linked { TreesAreLinked }
    ensures formed { TreesAreFormed }
{}

/// How the versions of an object are listed. It does nothing: its contract is the law.
pub fn listing_of_an_object()
    ensures once { AllAreListedOnce }
    ensures first { FirstIsListedFirst }
{}

/// Worked rows of freezes, a branch, drops and a removal, and what is listed. It does nothing: its contract is the law.
pub fn worked_rows()
    ensures freezes { FreezesAreListed }
    ensures drop { DropIsListed }
    ensures branch { BranchIsListed }
    ensures left { OneIsLeft }
{}

/// Each update keeps the versions linked and in order of their numbers. It does nothing: its contract is the law.
pub fn updates_keep_links()
    ensures create { CreatingKeepsLinks }
    ensures edit { EditingKeepsLinks }
    ensures freeze { FreezingKeepsLinks }
    ensures derive { DerivingKeepsLinks }
    ensures remove { RemovingKeepsLinks }
{}

/// The removal of a version makes no more objects of one. It does nothing: its contract is the law.
pub fn removals_split_none()
    ensures { RemovingSplitsNone }
{}

/// An update of a version that is not among the versions changes none of them. It does nothing: its contract is the law.
pub fn updates_elsewhere()
    ensures edit { EditElsewhere }
    ensures freeze { FreezeElsewhere }
    ensures derive { DeriveElsewhere }
    ensures remove { RemoveElsewhere }
{}

/// What the version is that an update makes, changes or removes. It does nothing: its contract is the law.
pub fn updates_show()
    ensures create { CreatedIsEmpty }
    ensures edit { EditedIsChanged }
    ensures freeze { FreezeIsACopy }
    ensures derive { DerivedIsACopy }
    ensures remove { RemovedIsGone }
{}

/// No update changes the bytes of a version that it doesn't name, nor whether that is frozen. It does nothing: its contract is the law.
pub fn updates_keep_others()
    ensures create { CreatingKeepsOthers }
    ensures edit { EditingKeepsOthers }
    ensures freeze { FreezingKeepsOthers }
    ensures derive { DerivingKeepsOthers }
    ensures remove { RemovingKeepsOthers }
{}

/// A frozen version keeps its bytes and stays frozen until it is removed. It does nothing: its contract is the law.
pub fn updates_keep_frozen()
    ensures create { CreatingKeepsFrozen }
    ensures edit { EditingKeepsFrozen }
    ensures freeze { FreezingKeepsFrozen }
    ensures derive { DerivingKeepsFrozen }
    ensures remove { RemovingKeepsFrozen }
{}
