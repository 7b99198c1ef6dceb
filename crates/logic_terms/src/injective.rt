//! Terms and formulas as nodes.

ghost use Rattle.logic_terms.specs.Views.{FormulaLaw, TermLaw};

/// Terms that are the same node are the same, and so are formulas.
pub fn views_are_injective()
    ensures terms { TermLaw }
    ensures formulas { FormulaLaw }
{}
