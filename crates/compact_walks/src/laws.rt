//! Laws of the definitions in `specs/`. The functions do nothing; a caller whose proof needs a law calls its function.

ghost use Rattle.compact_walks.specs.Laws.{EndsAreOne, GraphsAreMoved, MovedHeaders, MovedIsGreatest, MovedIsNest, MovedIsRenumbered, MovedIterationsExceed};
ghost use Rattle.compact_walks.specs.Laws.{MovedReachesExit, MovedWalkExceeds, OthersHaveOneAround, OutermostAreApart, PartsAreSound};

/// The compact graph of a method's graph has its nodes, edges and exits under other numbers.
pub fn graphs_are_moved()
    ensures graphs { GraphsAreMoved }
    ensures renumbered { MovedIsRenumbered }
{}

/// An exit is reached in both graphs or in none.
pub fn moved_reaches_exit()
    ensures { MovedReachesExit }
{}

/// The headers of loops, and the loops, have the other numbers.
pub fn moved_is_nest()
    ensures headers { MovedHeaders }
    ensures nest { MovedIsNest }
{}

/// The greatest walk costs the same in both graphs, and numbers are too large in both or in none.
pub fn moved_is_greatest()
    ensures greatest { MovedIsGreatest }
    ensures walks { MovedWalkExceeds }
    ensures iterations { MovedIterationsExceed }
{}

/// Where the compact graph of a whole is reducible, that of a part of it is, and each header of the part is one of the whole.
pub fn parts_are_sound()
    ensures { PartsAreSound }
{
    loop_nest::laws::parts_are_reducible();
}

/// The reduction of a compact graph has one end.
pub fn ends_are_one()
    ensures { EndsAreOne }
{
    loop_nest::laws::reduction_has_one_end();
}

/// None of the outermost loops lies in another, and each loop that may be charged and isn't lies in one that is.
pub fn outermost_are_apart()
    ensures apart { OutermostAreApart }
    ensures others { OthersHaveOneAround }
{
    loop_nest::laws::loops_are_nested();
    loop_nest::laws::headers_dominate_members();
    loop_nest::laws::dominance_is_antisymmetric();
}
