// What a call is made of, as trees have it.
ghost use Rattle.std.specs.Prelude.{◌≡◌};
ghost use Rattle.gl_rulelang.specs.Tree.{call_of, args_view, row};
ghost use Rattle.gl_check.specs.Functions.{function_named};

use crate::function::Function;
use gl_base::Text;
use gl_rulelang::{Call, Expr};

/// The function or action that it calls.
pub fn function_of(call: &Call) -> Option<Function>
    ensures { result ≡ function_named (call_of call.now).0 }
{
    Function::named(call.name.as_str())
}

pub fn arguments_of(call: &Call) -> &[(Option<Text>, Expr)]
    ensures { row (args_view result.now) ≡ (call_of call.now).1 }
{
    &call.arguments
}
