//! What holds of every line, every tree and every closed set of facts.
ghost use Rattle.refutation.specs.Laws.{LinesHold, TreesRefute, ReadingsAccept, EdgesAreCounted, PartialsAreSmall, UntriedsAreFew, LinesGiveOne, LinesGrow, ClosedHasAll, DetectedNeverClashes, ClosedMeet, ClosedBelow, OpenSearchesWait, LinesAreLive, KnownIsHeld, ItemsTellTree};

/// Each line keeps the truth of the held facts, wherever some observed node differs.
pub fn lines_hold()
    ensures { LinesHold }
{}

/// An accepted closed tree leaves no assignment that detects the fault.
pub fn trees_refute()
    ensures { TreesRefute }
{}

/// The items of a tree are read to its end exactly where it is accepted.
pub fn readings_accept()
    ensures { ReadingsAccept }
{}

/// A tree's edges can be counted over its items, and a partial tree has few.
pub fn edges_are_few()
    ensures counted { EdgesAreCounted }
    ensures few { PartialsAreSmall }
    ensures untried { UntriedsAreFew }
{}

/// A line gives one fact at most.
pub fn lines_give_one()
    ensures { LinesGiveOne }
{}

/// A line's condition stays met while facts come and no two are opposed.
pub fn lines_grow()
    ensures { LinesGrow }
{}

/// A set that is closed under every line, without a clash, has every derivable fact.
pub fn closed_has_all()
    ensures { ClosedHasAll }
{}

/// A fault that some assignment detects leads to no clash at any depth of learning.
pub fn detected_never_clashes()
    ensures { DetectedNeverClashes }
{}

/// Two sets that are closed at a depth meet in one, and are closed at smaller depths.
pub fn closed_sets_meet()
    ensures meet { ClosedMeet }
    ensures below { ClosedBelow }
{}

/// At a split of an open search, forward reading isn't quiet.
pub fn open_searches_wait()
    ensures { OpenSearchesWait }
{}

/// A line's fact is on a live node.
pub fn lines_are_live()
    ensures { LinesAreLive }
{}

/// A good value that is known of a node is held there.
pub fn known_is_held()
    ensures { KnownIsHeld }
{}

/// The items of a tree tell the tree.
pub fn items_tell_tree()
    ensures { ItemsTellTree }
{}
