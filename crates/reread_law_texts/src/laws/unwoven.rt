//! Laws of brackets that were put into a tree, and are taken out as those of probes are. The
//! functions do nothing: each has a law as its contract.
ghost use Rattle.reread_law_texts.specs.unwoven.Laws.{BracketsGo, TextsHaveNone, TreesComeBack};

/// Without the brackets of probes a tree is the same, whether or not brackets were put into it.
pub fn brackets_go()
    ensures { BracketsGo }
{}

/// The tree of a text has no brackets of probes, and comes back where brackets were put into it.
pub fn trees_come_back()
    ensures none { TextsHaveNone }
    ensures back { TreesComeBack }
{}
