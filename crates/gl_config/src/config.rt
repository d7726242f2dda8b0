// The configuration of a server.
ghost use Rattle.std.specs.Prelude.{◌≡◌, ◌-◌, ◌<◌, ◌^◌, IfOk};
ghost use Rattle.gl_grok.specs.Tables.{table_of};
ghost use Rattle.gl_settings.specs.Settings.{initial_settings, kind_of, extractors_of, tables_of};
ghost use Rattle.gl_settings.specs.Patterns.{patterns_of};
ghost use Rattle.gl_config.specs.Applying.{applied, Answers};

use crate::applying::made_by;
use gl_base::{Items, Text};
use gl_check::Checked;
use gl_commands::Command;
use gl_extract::Extractor;
use gl_fields::{InputKind, SetRule};
use gl_lookup::LookupTable;
use gl_rulelang::Pipeline;
use gl_settings::{ConfigRefusal, Input, Parts, User, within_limits};
use gl_streams::Stream;
use std::alloc::{AllocError, Global};
use std::collections::BTreeMap;
use std::marker::Model;

/// What messages are processed by, and who may ask. It never changes: a command makes the next one.
#[derive(Drop)]
pub struct Config {
    parts: Parts,
}

impl Model for Config {
    ghost use Rattle.gl_settings.specs.Settings.{Settings};
    ghost use Rattle.gl_settings.specs.Codes.{settings_code};

    ghost Value = { Settings };

    ghost coded = { settings_code };

    ghost view = { λ c. c.parts };
}

impl Config {
    /// The configuration of a new store: the inputs `raw`, `gelf` and `syslog`, each of the kind that its name says, the
    /// index set `graylog`, which keeps one index without limits, the default stream, which has no rules, the grok patterns
    /// to begin with, and the administrator `admin`, whose token is `admin`.
    pub fn initial(alloc: Global) -> Result<Config, AllocError>
        ensures { IfOk result (λ c. c ≡ initial_settings) }
    {
        Ok(Config {
            parts: Parts::initial(alloc)?,
        })
    }

    /// Its parts.
    pub fn parts(&self) -> &Parts
        ensures { result.now ≡ self.now }
    {
        &self.parts
    }

    /// The number of commands that made it.
    pub fn version(&self) -> u64
        ensures { result ≡ self.now.version }
    {
        self.parts.version()
    }

    /// The configuration behind this command, or the first reason for which it is refused, in this order: the source of a
    /// rule or a pipeline doesn't read (`BadText`); a name that isn't of the form (`BadName`); one that is taken, or the
    /// hash of another user's token (`NameTaken`); one that is referred to and isn't there (`UnknownName`); another text
    /// that can't be (`BadText`); the first bound that the next configuration passes, in the order of `Bound` (`Limit`);
    /// more bytes of patterns than there may be (`Budget`). It never answers `VersionConflict` or `PatternRefused`.
    ///
    /// This configuration stays as it is, and shares with the next one what the command doesn't change.
    pub fn apply(&self, alloc: Global, command: &Command) -> Result<Config, ConfigRefusal>
        requires { self.now.version < 2 ^ 64 - 1 }
        ensures { Answers result (applied self.now command.now) }
    {
        let parts = made_by(&self.parts, alloc, command)?;
        within_limits(&parts, alloc)?;
        Ok(Config { parts })
    }

    /// An equal configuration, which shares what it has.
    pub fn copy(&self) -> Result<Config, AllocError>
        ensures { IfOk result (λ c. c ≡ self.now) }
    {
        Ok(Config {
            parts: self.parts.copy()?,
        })
    }

    /// What decodes the payloads of the input with this name; `None` where no input has it.
    pub fn input_kind(&self, name: &str) -> Option<InputKind>
        ensures { result ≡ kind_of self.now name.now }
    {
        match self.parts.input(name) {
            Some(input) => Some(input.kind),
            None => None,
        }
    }

    /// The extractors of the input with this name, in the order in which they run; none where no input has it.
    pub fn extractors(&self, input: &str) -> &[Extractor]
        ensures { result.now ≡ extractors_of self.now input.now }
    {
        match self.parts.input(input) {
            Some(input) => input.extractors.as_slice(),
            None => &[],
        }
    }

    /// The index sets by rising names.
    pub fn index_sets(&self) -> &[SetRule]
        ensures { result.now ≡ self.now.sets }
    {
        self.parts.sets()
    }

    /// The inputs, in the order in which they were made.
    pub fn inputs(&self) -> &[Input]
        ensures { result.now ≡ self.now.inputs }
    {
        self.parts.inputs()
    }

    /// The streams by their ids, which are 1, 2 and so on.
    pub fn streams(&self) -> &[Stream]
        ensures { result.now ≡ self.now.streams }
    {
        self.parts.streams()
    }

    /// The rules by rising names.
    pub fn rules(&self) -> &[Checked]
        ensures { result.now ≡ self.now.rules }
    {
        self.parts.rules()
    }

    /// The pipelines by rising names.
    pub fn pipelines(&self) -> &[Pipeline]
        ensures { result.now ≡ self.now.pipelines }
    {
        self.parts.pipelines()
    }

    /// The streams that were connected, by rising ids, each with the names of its pipelines as they were given, of which
    /// there may be none.
    pub fn connections(&self) -> &[(u64, Items<Text>)]
        ensures { result.now ≡ self.now.connections }
    {
        self.parts.connections()
    }

    /// The lookup tables by their names.
    pub fn lookups(&self) -> &BTreeMap<String, LookupTable>
        ensures { tables_of result.now ≡ self.now.lookups }
    {
        self.parts.lookups()
    }

    /// The named patterns of grok.
    pub fn groks(&self) -> &BTreeMap<String, String>
        ensures { table_of result.now ≡ self.now.groks }
    {
        self.parts.groks()
    }

    /// The users by rising names.
    pub fn users(&self) -> &[User]
        ensures { result.now ≡ self.now.users }
    {
        self.parts.users()
    }

    /// The texts of all patterns that messages are processed by: those of the rules of streams, of extractors and their
    /// conditions, those of grok expanded, and those of the rules of pipelines, each as often as it stands there.
    pub fn patterns(&self, alloc: Global) -> Result<Items<Text>, AllocError>
        ensures { IfOk result (λ texts. texts ≡ patterns_of self.now) }
    {
        self.parts.patterns(alloc)
    }
}
