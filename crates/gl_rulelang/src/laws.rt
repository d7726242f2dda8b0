ghost use Rattle.std.specs.Prelude.{ℕ, List, ◌≡◌, ◌≤◌, [], Ok};
ghost use Rattle.gl_rulelang.specs.Tree.{Tree, RuleTree, height};
ghost use Rattle.gl_rulelang.specs.Tokens.{Tokens};
ghost use Rattle.gl_rulelang.specs.Nesting.{deepest};
ghost use Rattle.gl_rulelang.specs.Grammar.{Form, IsLawful, Begins, EndsExpression, Spells, spelled, meant, nested, form_of};
ghost use Rattle.gl_rulelang.specs.Rules.{expression_at};
ghost use Rattle.gl_rulelang.specs.Sentences.{IsRule, IsPipeline};
ghost use Rattle.gl_rulelang.specs.declared.pipeline.Pipeline.{Pipeline};

/// Where a form of the grammar is spelled before `then` or `;`, it is read to the tree that it means, if it nests
/// at most 64 deep.
pub fn law_forms_are_read()
    ensures { (f : Form) (ts behind : Tokens) → IsLawful f → Begins (spelled f) ts behind
        → height (meant f) ≤ deepest → nested f ≤ deepest → EndsExpression behind
        → expression_at ts ≡ Ok (meant f, behind) }
{}

/// What is read as an expression is spelled as a lawful form that means it and nests at most 64 deep.
pub fn law_read_is_a_form()
    ensures { (ts behind : Tokens) (t : Tree) → expression_at ts ≡ Ok (t, behind) → Spells ts t behind }
{}

/// Forms that are spelled alike mean the same tree, if they nest at most 64 deep.
pub fn law_one_tree()
    ensures { (f g : Form) → IsLawful f → IsLawful g → height (meant f) ≤ deepest → nested f ≤ deepest
        → height (meant g) ≤ deepest → nested g ≤ deepest → spelled f ≡ spelled g → meant f ≡ meant g }
{}

/// Where a tree is spelled as it is shown, each operand that is an operation in parentheses, it is read again.
pub fn law_shown_form()
    ensures { (t : Tree) (ts behind : Tokens) → Begins (spelled (form_of t)) ts behind → height t ≤ deepest
        → EndsExpression behind → expression_at ts ≡ Ok (t, behind) }
{}

/// No text is spelled as two rules.
pub fn law_one_rule()
    ensures { (text : List ℕ) (one other : RuleTree) → IsRule text one → IsRule text other → one ≡ other }
{}

/// No text is spelled as two pipelines.
pub fn law_one_pipeline()
    ensures { (text : List ℕ) (one other : Pipeline) → IsPipeline text one → IsPipeline text other → one ≡ other }
{}
