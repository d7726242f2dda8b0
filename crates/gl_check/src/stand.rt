/// Where an expression or a call stands in a rule.
#[derive(Clone, Copy)]
pub enum Stand {
    Condition,
    /// Inside another expression, or behind a `let`.
    Operand,
    Action,
}
