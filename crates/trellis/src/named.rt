// What is proved of the named plan.
ghost use Rattle.trellis.specs.Named.{NamesOne, NamesBest};

use costs::Kind;

// At most one plan is named for some blocks and a budget, and what is named is a best choice.
pub fn named_plan<K: Kind>()
    ensures one { NamesOne K.Kind.model }
    ensures best { NamesBest K.Kind.model }
{}
