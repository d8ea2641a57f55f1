ghost use Rattle.heads.specs.Edges.{HeadEdges};

// Worked examples.
pub fn head_edges()
    ensures { HeadEdges }
{}
