//! Laws of graphs of methods. The functions do nothing; a caller whose proof needs a law calls its function.

ghost use Rattle.method_runs.specs.TypedGraphs.Laws.{LiveGraphsExist, MethodGraphsExist, TypedMethodsReachRows, TypedMethodsReachStarts};

/// In a typed program control comes to instructions of a method's code alone.
pub fn typed_methods_reach_starts()
    ensures { TypedMethodsReachStarts }
{}

/// Each of these has a row.
pub fn typed_methods_reach_rows()
    ensures { TypedMethodsReachRows }
{}

/// A method with code of a typed program has a graph.
pub fn method_graphs_exist()
    ensures { MethodGraphsExist }
{
    opcodes::laws::starts_follow_one_another();
}

/// A method with code of a typed program has a live graph.
pub fn live_graphs_exist()
    ensures { LiveGraphsExist }
{
    opcodes::laws::starts_follow_one_another();
}
