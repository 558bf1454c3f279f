// Which texts have an expression, and which a fault.
ghost use Rattle.std.specs.Prelude.{◌≡◌, ◌⊎◌, ℕ, List};
ghost use Rattle.expr_grammar.specs.Words.{IsText, IsFirstFault, IsRead, reading};
ghost use Rattle.expr_grammar.specs.declared.expr.Expr.{Expr};
ghost use Rattle.expr_grammar.specs.declared.fault.ExprFault.{ExprFault};

/// Each text has one expression or one first fault. It does nothing: its contract is the laws.
pub fn expression_laws()
    // No text has two expressions.
    ensures one_expression { (text : List ℕ) (x y : Expr) → IsText text x → IsText text y → x ≡ y }

    // No text has two first faults.
    ensures one_fault { (text : List ℕ) (f g : ExprFault) → IsFirstFault text f → IsFirstFault text g → f ≡ g }

    // No text has both.
    ensures not_both { (text : List ℕ) (x : Expr) (f : ExprFault) → IsText text x → ¬ (IsFirstFault text f) }

    // Each text has one of them.
    ensures either { (text : List ℕ) → ((x : Expr) × IsText text x) ⊎ ((f : ExprFault) × IsFirstFault text f) }

    // A text is read as what it is: definitions above speak of `reading`, and nobody has to read how it goes.
    ensures reads { (text : List ℕ) → IsRead text (reading text) }
{}
