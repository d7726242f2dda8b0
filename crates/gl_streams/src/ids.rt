// Ids in rising order, each once.
ghost use Rattle.std.specs.Prelude.{◌≡◌, ◌<◌, ℕ, OnOk, OnErr};
ghost use Rattle.gl_fields.specs.Fields.{Rises};
ghost use Rattle.gl_streams.specs.Ids.{with_id, without_id};

use std::alloc::AllocError;

/// Puts an id in where it stands in rising order, unless it is there. An error changes nothing.
pub fn put(ids: &mut Vec<u64>, id: u64) -> Result<(), AllocError>
    requires { Rises (λ (a b : ℕ). a < b) ids.old.items }
    ensures ids { OnOk result (ids.new.items ≡ with_id ids.old.items id) }
    ensures err { OnErr result (ids.new.items ≡ ids.old.items) }
{
    match ids.binary_search(&id) {
        Ok(_) => Ok(()),
        Err(at) => {
            ids.insert(at, id)?;
            Ok(())
        }
    }
}

/// Takes an id out, if it is there. It takes no memory.
pub fn take_out(ids: &mut Vec<u64>, id: u64)
    ensures { ids.new.items ≡ without_id ids.old.items id }
{
    ids.retain(|other| *other != id);
}
