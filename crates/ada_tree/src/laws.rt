//! Laws of trees.

ghost use Rattle.std.specs.Prelude.{◌≡◌, List};
ghost use Rattle.ada_text.specs.declared.token.Token.{Token};
ghost use Rattle.ada_syntax.specs.declared.units.SourceUnit.{SourceUnit};
ghost use Rattle.ada_syntax.specs.Units.{spelled};
ghost use Rattle.ada_syntax.specs.Words.{words};
ghost use Rattle.grammar_table.specs.Answers.{start, terminals};
ghost use Rattle.grammar_table.specs.Parses.{Parses, Step, taken};
ghost use Rattle.grammar_table.specs.Productions.{productions};
ghost use Rattle.ada_tree.specs.Trees.{Spells};

/// A tree reads as its tokens: so it has one list of tokens, but for the places of reserved words and delimiters.
pub fn tree_spelled()
    ensures { (u : SourceUnit) (ts : List Token) → Spells u ts → spelled u ≡ words ts }
{}

/// A list of tokens has at most one tree.
pub fn one_tree()
    ensures { (u v : SourceUnit) (ts : List Token) → Spells u ts → Spells v ts → u ≡ v }
{}

/// A list of tokens that has a parse has a tree.
pub fn has_tree()
    ensures { (ts : List Token) (steps : List Step)
        → Parses productions start steps
        → taken steps ≡ terminals ts
        → (u : SourceUnit) × Spells u ts }
{}
