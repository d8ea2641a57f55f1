// The edges of the rules, shown of the very definitions that the calls' contracts cite.
#![tactic(auto)]

ghost use Rattle.edges.specs.Edges.{Edges};

// All of them, in one statement.
pub fn edges_hold()
    ensures { Edges }
{}
