//! Laws of the definitions in `specs/`, over classes of which none is its own superclass or superinterface: the hierarchy is
//! an order, lookups go as the standard says, and the tests of overriding and selection are what they are called. The
//! functions do nothing; a caller whose proof needs a law calls its function.

ghost use Rattle.class_lookup.specs.Laws.{Comparisons, HierarchyLaw, SuperclassesLaw, FieldsAreLookedUp, MethodLookupLaw, FoundFields, FoundMethods};
ghost use Rattle.class_lookup.specs.Laws.{MembersHaveSymbols, MethodsLaw, OverridingLaw, OverridingNeeds, SelectionLaw, SymbolsStandForTexts};
ghost use Rattle.class_lookup.specs.Example.{WorkedLookups};

/// The tests of texts, of names with descriptors, and of places say whether both are equal.
pub fn equals_are_compared()
    ensures { Comparisons }
{}

/// Each text of a class has a symbol.
pub fn members_have_symbols()
    ensures { MembersHaveSymbols }
{}

/// Two texts of one symbol are one.
pub fn symbols_stand_for_texts()
    ensures { SymbolsStandForTexts }
{}

/// Each class extends itself and what those directly above it extend, and nothing else.
pub fn classes_extend_what_is_above()
    ensures { HierarchyLaw }
{}

/// From a class upwards stand the class and what stands from its direct superclass upwards.
pub fn superclasses_stand_above()
    ensures { SuperclassesLaw }
{}

/// A field is looked up in the class, else in its direct superinterfaces, else in its superclass (5.4.3.2).
pub fn fields_are_looked_up()
    ensures { FieldsAreLookedUp }
{}

/// A method is looked up in the class, else in its superclass, else in the superinterfaces (5.4.3.3, 5.4.3.4).
pub fn methods_are_looked_up()
    ensures { MethodLookupLaw }
{}

/// What is found stands in the class or above it, and has the name and the descriptor that are asked for.
pub fn members_are_found_above()
    ensures fields { FoundFields }
    ensures methods { FoundMethods }
{}

/// A method has a name and a descriptor, and what a class declares, or it and its superclasses, are such methods.
pub fn methods_have_signatures()
    ensures { MethodsLaw }
{}

/// The test of overriding is true exactly of a method that overrides the other (5.4.5).
pub fn overriding_is_decided()
    ensures decided { OverridingLaw }
    ensures needs { OverridingNeeds }
{}

/// What is selected is the first method from the receiver's class upwards that is the resolved one or overrides it, and of
/// an interface's method the first public instance method of its name and descriptor; what is selected of a class's is also
/// selected for itself.
pub fn the_first_method_is_selected()
    ensures { SelectionLaw }
{}

/// A hierarchy of fifteen classes in three packages, with what is looked up and selected in it.
pub fn worked_lookups()
    ensures { WorkedLookups }
{}
