// What holds of all scripts.
ghost use Rattle.njs_tree.specs.Grammar.{OneTree};
ghost use Rattle.njs_expr.specs.Laws.{OneExpression, OneItem};

/// Tokens begin with one expression at most, and it ends at one place.
pub fn one_expression_per_place()
    ensures { OneExpression }
{}

/// Tokens begin with one statement or declaration at most, and it ends at one place.
pub fn one_item_per_place()
    ensures { OneItem }
{}

/// A text is spelled by one tree at most.
pub fn one_tree_per_text()
    ensures { OneTree }
{}
