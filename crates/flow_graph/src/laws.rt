//! Laws of the definitions in `specs/`. The functions do nothing; a caller whose proof needs a law calls its function.

ghost use Rattle.flow_graph.specs.Laws.{CodeGraphsAreGraphs, GraphsWhereAllGoOn};

/// The graph by the edges of a program's code is the method's graph.
pub fn code_graphs_are_graphs()
    ensures { CodeGraphsAreGraphs }
{
    opcodes::laws::starts_follow_one_another();
    method_flow::laws::rows_are_of_their_kinds();
}

/// Where all calls go on, the graph is that of the method.
pub fn graphs_where_all_go_on()
    ensures { GraphsWhereAllGoOn }
{}
