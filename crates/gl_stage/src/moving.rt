use gl_base::Text;
use gl_eval::Staged;

// A message in a round of pipelines, and the names of those that have stopped.
#[derive(Drop)]
pub(crate) struct Moving<'a> {
    pub(crate) message: Staged,
    pub(crate) stopped: Vec<&'a Text>,
}
