//! The laws, said of whole sources and of every height.

ghost use Rattle.std.specs.Prelude.{◌≡◌, ◌+◌, ◌≤◌, Ok, Err};
ghost use Rattle.js_tree.specs.Height.{height, height_of_statements};
ghost use Rattle.js_parser_language.specs.Language.{BeginsLanguage, IsExpression, IsFunction, IsScript};
ghost use Rattle.js_parser_laws.specs.Exact.{AreAlike, BeginsWritten, LeavesAt, TooDeepFrom};
ghost use Rattle.js_parser_readers.specs.Reading.{stuck, deep};
ghost use Rattle.js_parser_readers.specs.Parsing.{parse_expression, parse_function, parse_script};

/// Tokens that are read as an expression are that expression, and an expression is read as itself,
/// where the height that is allowed suffices; tokens have one tree at most. Where reading is stuck,
/// the tokens before begin an expression, and with the next one, or at the end, they begin none or
/// are none (ECMA-262, 13.16). Where a tree would be too deep with three levels to spare, some first
/// tokens begin only expressions that are deeper. Without levels to spare that is false: `(a)` is
/// deeper than `(a) => {}`, which begins alike. Tokens that begin an expression do so with tokens
/// behind them that can be written, and no expression depends on where its tokens stand.
#[tactic(auto, using(crate::proofs::Soundness::expression_read, crate::proofs::Completeness::expression_again_whole, crate::proofs::Completeness::one_expression, crate::proofs::Exactness::expression_leaves_at, crate::proofs::DeepWhole::expression_too_deep, crate::proofs::BegunLaws::expression_written, crate::proofs::BegunLaws::expression_alike))]
pub fn expressions()
    ensures sound { (n : _) (ts : _) (e : _) → parse_expression n ts ≡ Ok e → IsExpression ts e × (height e ≤ n) }
    ensures complete { (n : _) (ts : _) (e : _) → IsExpression ts e → height e ≤ n → parse_expression n ts ≡ Ok e }
    ensures one { (ts : _) (e f : _) → IsExpression ts e → IsExpression ts f → e ≡ f }
    ensures stuck { (n : _) (ts : _) (left : _) → parse_expression n ts ≡ Err (stuck left) → LeavesAt IsExpression ts left }
    ensures deep { (n : _) (ts : _) (left : _) → parse_expression (n + 3) ts ≡ Err (deep left) → TooDeepFrom IsExpression height ts n }
    ensures written { (ts : _) → BeginsLanguage IsExpression ts → BeginsWritten IsExpression ts }
    ensures alike { (ts : _) (us : _) (e : _) → AreAlike ts us → IsExpression ts e → IsExpression us e }
{}

/// What `pure_eval_preparation` says of expressions holds of function expressions and arrow functions (15.2, 15.3).
#[tactic(auto, using(crate::proofs::Soundness::function_read, crate::proofs::Completeness::function_again_whole, crate::proofs::Completeness::one_function, crate::proofs::Exactness::function_leaves_at, crate::proofs::DeepWhole::function_too_deep, crate::proofs::BegunLaws::function_written, crate::proofs::BegunLaws::function_alike))]
pub fn functions()
    ensures sound { (n : _) (ts : _) (e : _) → parse_function n ts ≡ Ok e → IsFunction ts e × (height e ≤ n) }
    ensures complete { (n : _) (ts : _) (e : _) → IsFunction ts e → height e ≤ n → parse_function n ts ≡ Ok e }
    ensures one { (ts : _) (e f : _) → IsFunction ts e → IsFunction ts f → e ≡ f }
    ensures stuck { (n : _) (ts : _) (left : _) → parse_function n ts ≡ Err (stuck left) → LeavesAt IsFunction ts left }
    ensures deep { (n : _) (ts : _) (left : _) → parse_function (n + 3) ts ≡ Err (deep left) → TooDeepFrom IsFunction height ts n }
    ensures written { (ts : _) → BeginsLanguage IsFunction ts → BeginsWritten IsFunction ts }
    ensures alike { (ts : _) (us : _) (e : _) → AreAlike ts us → IsFunction ts e → IsFunction us e }
{}

/// What `pure_eval_preparation` says of expressions holds of scripts, after scripts that declare these names (16.1).
#[tactic(auto, using(crate::proofs::Soundness::script_read, crate::proofs::Completeness::script_again_whole, crate::proofs::Completeness::one_script, crate::proofs::Exactness::script_leaves_at, crate::proofs::DeepWhole::script_too_deep, crate::proofs::BegunLaws::script_written, crate::proofs::BegunLaws::script_alike))]
pub fn scripts()
    ensures sound { (n : _) (earlier : _) (ts : _) (body : _) → parse_script n earlier ts ≡ Ok body → IsScript earlier ts body × (height_of_statements body ≤ n) }
    ensures complete { (n : _) (earlier : _) (ts : _) (body : _) → IsScript earlier ts body → height_of_statements body ≤ n → parse_script n earlier ts ≡ Ok body }
    ensures one { (earlier : _) (ts : _) (a b : _) → IsScript earlier ts a → IsScript earlier ts b → a ≡ b }
    ensures stuck { (n : _) (earlier : _) (ts : _) (left : _) → parse_script n earlier ts ≡ Err (stuck left) → LeavesAt (IsScript earlier) ts left }
    ensures deep { (n : _) (earlier : _) (ts : _) (left : _) → parse_script (n + 3) earlier ts ≡ Err (deep left) → TooDeepFrom (IsScript earlier) height_of_statements ts n }
    ensures written { (earlier : _) (ts : _) → BeginsLanguage (IsScript earlier) ts → BeginsWritten (IsScript earlier) ts }
    ensures alike { (earlier : _) (ts : _) (us : _) (body : _) → AreAlike ts us → IsScript earlier ts body → IsScript earlier us body }
{}
