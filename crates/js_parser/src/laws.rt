//! What holds of the trees of texts. The functions do nothing: the contract of each is the law.

ghost use Rattle.std.specs.Prelude.{◌≡◌, None, Some};
ghost use Rattle.js_tree.specs.Height.{height};
ghost use Rattle.js_parser_language.specs.Language.{IsExpression, IsFunction};
ghost use Rattle.js_parser.specs.Expressions.{expression_of, function_of};
ghost use Rattle.js_parser.specs.Sources.{IsSource};

/// The tree of a text, as a function of it, is the tree of the expression that the text is, within
/// the limits; where the text is none, there is no tree.
#[tactic(auto, using(crate::proofs::ExpressionLemmas::expression_some, crate::proofs::ExpressionLemmas::expression_lacks))]
pub fn texts_of_expressions()
    ensures some { (source : _) (e : _) → IsSource IsExpression height source e → expression_of source ≡ Some e }
    ensures is { (source : _) (e : _) → expression_of source ≡ Some e → IsSource IsExpression height source e }
    ensures none { (source : _) → ((e : _) → IsSource IsExpression height source e → ⊥) → expression_of source ≡ None }
{}

/// The tree of a text, as a function of it, is the tree of the function expression or arrow function
/// that the text is, within the limits; where the text is none, there is no tree.
#[tactic(auto, using(crate::proofs::ExpressionLemmas::function_some, crate::proofs::ExpressionLemmas::function_lacks))]
pub fn texts_of_functions()
    ensures some { (source : _) (e : _) → IsSource IsFunction height source e → function_of source ≡ Some e }
    ensures is { (source : _) (e : _) → function_of source ≡ Some e → IsSource IsFunction height source e }
    ensures none { (source : _) → ((e : _) → IsSource IsFunction height source e → ⊥) → function_of source ≡ None }
{}

/// The text of a function expression or of an arrow function is an expression with the same tree.
#[tactic(auto, using(crate::proofs::NodeTextLemmas::function_tree_is))]
pub fn functions_are_expressions()
    ensures { (source : _) (e : _) → function_of source ≡ Some e → expression_of source ≡ Some e }
{}
