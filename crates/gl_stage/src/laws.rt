// What a run promises.
ghost use Rattle.gl_eval.specs.declared.staged.Staged.{Staged};
ghost use Rattle.gl_stage.specs.Stages.{Scene};
ghost use Rattle.gl_stage.specs.Rounds.{Layout, HasOneEnd};

/// Law: from each start there is exactly one end to which a message runs, and it is the computed one. The message is dropped, or in
/// one stream at least where it was in one before, its streams rising where they rose.
pub fn law_one_end()
    ensures { (scene : Scene) (layout : Layout) (message : Staged) → HasOneEnd scene layout message }
{}
