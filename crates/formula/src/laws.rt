//! Laws of reading.
ghost use Rattle.std.specs.Prelude.{◌≡◌, ◌+◌, ◌<◌, ◌≤◌, ℕ, List, Err, Ok, length, take};
ghost use Rattle.box_geo.specs.declared.limits.TheConstants.{MAX_FORMULA_BYTES};
ghost use Rattle.formula.specs.declared.tree.Expr.{Expr};
ghost use Rattle.formula.specs.Asked.{asked, valued_by};
ghost use Rattle.formula.specs.ByName.{Ask, value_by_name};
ghost use Rattle.formula.specs.Fronts.{reading, Begins};
ghost use Rattle.formula.specs.Grammar.{IsGrouped, IsFormula};
ghost use Rattle.formula.specs.Operands.{operands};
ghost use Rattle.formula.specs.Reading.{parsed};
ghost use Rattle.formula.specs.Spelling.{Spells, spelling};
ghost use Rattle.formula.specs.Value.{value_of};

/// The place of a fault is that of the first byte with which the text so far begins no formula, or the
/// text's length. How long a formula may be is not counted here.
pub fn refused_at_the_first_wrong_byte()
    ensures within { (text : List ℕ) (at : ℕ) → reading text ≡ Err at → at ≤ length text }
    ensures before { (text : List ℕ) (at : ℕ) → reading text ≡ Err at → Begins (take at text) }
    ensures behind { (text : List ℕ) (at : ℕ) → reading text ≡ Err at → at < length text → Begins (take (at + 1) text) → ⊥ }
{}

/// In a tree that is read, each operator holds operands that bind tightly enough, and operators of one
/// level group to the left.
pub fn operators_group_by_their_levels()
    ensures { (text : List ℕ) (tree : Expr) → reading text ≡ Ok tree → IsGrouped tree }
{}

/// A text that is read spells its tree: its lexemes are the tree's from left to right, each at its place.
pub fn texts_spell_their_trees()
    ensures { (text : List ℕ) (tree : Expr) → reading text ≡ Ok tree → Spells text (spelling tree) }
{}

/// A text of the grammar is read as its tree, so it has no other.
pub fn texts_of_the_grammar_are_read()
    ensures is_read { (text : List ℕ) (tree : Expr) → IsFormula text tree → reading text ≡ Ok tree }
    ensures only { (text : List ℕ) (tree other : Expr) → IsFormula text tree → IsFormula text other → tree ≡ other }
{}

/// What is parsed is the grammar: a tree that is answered is the text's by the grammar; a text of the grammar
/// of at most [`MAX_FORMULA_BYTES`](box_geo::limits::MAX_FORMULA_BYTES) is parsed, and a longer text is refused.
pub fn exactly_the_grammar_is_parsed()
    ensures sound { (text : List ℕ) (tree : Expr) → parsed text ≡ Ok tree → IsFormula text tree }
    ensures complete { (text : List ℕ) (tree : Expr) → IsFormula text tree → length text ≤ MAX_FORMULA_BYTES → parsed text ≡ Ok tree }
    ensures too_long { (text : List ℕ) → MAX_FORMULA_BYTES < length text → parsed text ≡ Err MAX_FORMULA_BYTES }
{}

/// Operands that are asked for from left to right, up to the first that has a fault, give a formula the
/// value or the fault that it has by their names.
pub fn operands_are_asked_by_name()
    ensures { (ask : Ask) (tree : Expr) (depth : ℕ) → let some = asked ask (operands tree depth) in valued_by (value_of tree some.values depth) some.fault ≡ value_by_name ask tree depth }
{}
