// Whether a name may be there already.
ghost use Rattle.std.specs.Prelude.{◌≡◌, None, OnOk, IfErr};
ghost use Rattle.gl_settings.specs.Limits.{Refuses};
ghost use Rattle.gl_config.specs.Applying.{own_cause};

use gl_settings::ConfigRefusal;

/// What a command does with a thing of its name.
#[derive(Clone, Copy)]
pub enum Own {
    /// The name must not be there.
    Created,
    /// The name must be there.
    Changed,
}

impl Own {
    /// Whether the thing may be there, or not be there.
    pub fn check(self, is_there: bool) -> Result<(), ConfigRefusal>
        ensures ok { OnOk result (own_cause self is_there ≡ None) }
        ensures err { IfErr result (Refuses (own_cause self is_there)) }
    {
        match (self, is_there) {
            (Own::Created, true) => Err(ConfigRefusal::NameTaken),
            (Own::Changed, false) => Err(ConfigRefusal::UnknownName),
            (Own::Created, false) | (Own::Changed, true) => Ok(()),
        }
    }
}
