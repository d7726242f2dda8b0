// What a script brings in, whatever its processors do.
ghost use Rattle.std.specs.Prelude.{◌≡◌, ◌++◌, ℕ, List, [], filter};
ghost use Rattle.gl_node.specs.State.{Base, opened};
ghost use Rattle.gl_cli.specs.declared.line.Line.{Line};
ghost use Rattle.gl_cli.specs.Arrivals.{brings_in, journal_by, script_arrivals};
ghost use Rattle.gl_cli.specs.Runs.{last_state, script_turns, turns_of};

/// The journal after a script is what stood at opening and then the script's arrivals, and the journal
/// after any lines is a function of these lines alone. Lines by which processors claim or finish, or
/// which list, play no part in it: so scripts that differ in such lines alone leave one journal.
pub fn law_arrivals_of_a_script()
    ensures journal { (base : Base) (script : List ℕ) → (last_state base (script_turns base [] script)).journal ≡ base.journal ++ script_arrivals base script }
    ensures lines { (base : Base) (lines : List Line) → (last_state base (turns_of [] [] (opened base) [] lines)).journal ≡ journal_by base lines }
    ensures processors { (base : Base) (lines : List Line) → journal_by base (filter brings_in lines) ≡ journal_by base lines }
{}
