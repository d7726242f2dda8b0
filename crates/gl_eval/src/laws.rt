// What checking promises.
ghost use Rattle.gl_eval.specs.Typing.{HasItsKind, ConditionIsDecided, VariablesHaveTheirKinds};

/// Law: an expression without a fault means, whatever the message, a value of its kind, or is missing, and a truth value never is;
/// so no sign and no function of a checked rule meets an operand or argument of another kind. The condition of a checked rule is
/// true or false of each message, and where an action of it is done, the variables have the kinds that were checked.
pub fn law_checked_is_typed()
    ensures kinds { HasItsKind }
    ensures condition { ConditionIsDecided }
    ensures variables { VariablesHaveTheirKinds }
{}
