ghost use Rattle.std.specs.Prelude.{◌≡◌, ◌+◌, ◌-◌, ◌<◌, ◌^◌, [], IfOk, option_copied};
ghost use Rattle.gl_grok.specs.Tables.{table_of};
ghost use Rattle.gl_settings.specs.Settings.{initial_settings, tables_of, input_named};
ghost use Rattle.gl_settings.specs.Patterns.{patterns_of};

use crate::initial::{initial_inputs, initial_sets, initial_streams, initial_users};
use crate::patterns::{push_checked, push_inputs, push_streams};
use crate::{Input, User};
use gl_base::{Items, Joint, Text};
use gl_check::Checked;
use gl_fields::SetRule;
use gl_grok::initial_patterns;
use gl_lookup::LookupTable;
use gl_rulelang::Pipeline;
use gl_streams::Stream;
use std::alloc::{AllocError, Global};
use std::collections::BTreeMap;
use std::marker::Model;

/// What a configuration is made of. Each part is shared by all copies, and a call that replaces one leaves the others shared.
#[derive(Drop)]
pub struct Parts {
    version: u64,
    inputs: Joint<Items<Input>>,
    sets: Joint<Items<SetRule>>,
    streams: Joint<Items<Stream>>,
    rules: Joint<Items<Checked>>,
    pipelines: Joint<Items<Pipeline>>,
    connections: Joint<Items<(u64, Items<Text>)>>,
    lookups: Joint<BTreeMap<String, LookupTable>>,
    groks: Joint<BTreeMap<String, String>>,
    users: Joint<Items<User>>,
}

impl Model for Parts {
    ghost use Rattle.gl_settings.specs.Settings.{Settings};
    ghost use Rattle.gl_settings.specs.Codes.{settings_code};

    ghost Value = { Settings };

    ghost coded = { settings_code };

    ghost use Rattle.gl_settings.specs.Inside.{settings_of};

    ghost view = { settings_of };
}

fn none<T: Drop>(alloc: Global) -> Result<Joint<Items<T>>, AllocError>
    ensures { IfOk result (λ items. items ≡ []) }
{
    Joint::new(alloc, Items::new(alloc))
}

impl Parts {
    /// Those of a new store: the inputs `raw`, `gelf` and `syslog`, each of the kind that its name says, the index set
    /// `graylog`, which keeps one index without limits, the default stream, which has no rules, the grok patterns to begin
    /// with, and the administrator `admin`, whose token is `admin`.
    pub fn initial(alloc: Global) -> Result<Parts, AllocError>
        ensures { IfOk result (λ parts. parts ≡ initial_settings) }
    {
        Ok(Parts {
            version: 0,
            inputs: Joint::new(alloc, initial_inputs(alloc)?)?,
            sets: Joint::new(alloc, initial_sets(alloc)?)?,
            streams: Joint::new(alloc, initial_streams(alloc)?)?,
            rules: none(alloc)?,
            pipelines: none(alloc)?,
            connections: none(alloc)?,
            lookups: Joint::new(alloc, BTreeMap::new(alloc))?,
            groks: Joint::new(alloc, initial_patterns(alloc)?)?,
            users: Joint::new(alloc, initial_users(alloc)?)?,
        })
    }

    /// The number of commands that made them.
    pub fn version(&self) -> u64
        ensures { result ≡ self.now.version }
    {
        self.version
    }

    /// Equal parts, which share what they hold.
    pub fn copy(&self) -> Result<Parts, AllocError>
        ensures { IfOk result (λ parts. parts ≡ self.now) }
    {
        Ok(Parts {
            version: self.version,
            inputs: self.inputs.share()?,
            sets: self.sets.share()?,
            streams: self.streams.share()?,
            rules: self.rules.share()?,
            pipelines: self.pipelines.share()?,
            connections: self.connections.share()?,
            lookups: self.lookups.share()?,
            groks: self.groks.share()?,
            users: self.users.share()?,
        })
    }

    /// Equal parts under the next version.
    pub fn next(&self) -> Result<Parts, AllocError>
        requires { self.now.version < 2 ^ 64 - 1 }
        ensures { IfOk result (λ parts. parts ≡ record self.now { version = self.now.version + 1 }) }
    {
        let mut next = self.copy()?;
        next.version += 1;
        Ok(next)
    }

    /// The inputs, in the order in which they were made.
    pub fn inputs(&self) -> &[Input]
        ensures { result.now ≡ self.now.inputs }
    {
        self.inputs.get().as_slice()
    }

    /// The index sets by rising names.
    pub fn sets(&self) -> &[SetRule]
        ensures { result.now ≡ self.now.sets }
    {
        self.sets.get().as_slice()
    }

    /// The streams by their ids, which are 1, 2 and so on.
    pub fn streams(&self) -> &[Stream]
        ensures { result.now ≡ self.now.streams }
    {
        self.streams.get().as_slice()
    }

    /// The rules by rising names.
    pub fn rules(&self) -> &[Checked]
        ensures { result.now ≡ self.now.rules }
    {
        self.rules.get().as_slice()
    }

    /// The pipelines by rising names.
    pub fn pipelines(&self) -> &[Pipeline]
        ensures { result.now ≡ self.now.pipelines }
    {
        self.pipelines.get().as_slice()
    }

    /// The streams that were connected, by rising ids, each with the names of its pipelines as they were given, of which
    /// there may be none.
    pub fn connections(&self) -> &[(u64, Items<Text>)]
        ensures { result.now ≡ self.now.connections }
    {
        self.connections.get().as_slice()
    }

    /// The lookup tables by their names.
    pub fn lookups(&self) -> &BTreeMap<String, LookupTable>
        ensures { tables_of result.now ≡ self.now.lookups }
    {
        self.lookups.get()
    }

    /// The named patterns of grok.
    pub fn groks(&self) -> &BTreeMap<String, String>
        ensures { table_of result.now ≡ self.now.groks }
    {
        self.groks.get()
    }

    /// The users by rising names.
    pub fn users(&self) -> &[User]
        ensures { result.now ≡ self.now.users }
    {
        self.users.get().as_slice()
    }

    /// The input with this name, if there is one.
    pub fn input(&self, name: &str) -> Option<&Input>
        ensures { option_copied result ≡ input_named self.now name.now }
    {
        self.inputs()
            .iter()
            .find(|input| name == input.name.as_str())
    }

    /// The texts of all patterns that messages are processed by: those of the rules of streams, of extractors and their
    /// conditions, those of grok expanded, and those of the rules of pipelines, each as often as it stands there.
    pub fn patterns(&self, alloc: Global) -> Result<Items<Text>, AllocError>
        ensures { IfOk result (λ texts. texts ≡ patterns_of self.now) }
    {
        let mut texts = Items::new(alloc);
        push_streams(&mut texts, self.streams())?;
        push_inputs(alloc, self.groks(), &mut texts, self.inputs())?;
        push_checked(alloc, &mut texts, self.rules())?;
        Ok(texts)
    }

    /// The same parts with other inputs, here and below with another of the parts.
    pub fn with_inputs(mut self, alloc: Global, inputs: Items<Input>) -> Result<Parts, AllocError>
        ensures { IfOk result (λ parts. parts ≡ record self { inputs = inputs }) }
    {
        let inputs = Joint::new(alloc, inputs)?;
        self.inputs = inputs;
        Ok(self)
    }

    pub fn with_sets(mut self, alloc: Global, sets: Items<SetRule>) -> Result<Parts, AllocError>
        ensures { IfOk result (λ parts. parts ≡ record self { sets = sets }) }
    {
        let sets = Joint::new(alloc, sets)?;
        self.sets = sets;
        Ok(self)
    }

    pub fn with_streams(
        mut self,
        alloc: Global,
        streams: Items<Stream>,
    ) -> Result<Parts, AllocError>
        ensures { IfOk result (λ parts. parts ≡ record self { streams = streams }) }
    {
        let streams = Joint::new(alloc, streams)?;
        self.streams = streams;
        Ok(self)
    }

    pub fn with_rules(mut self, alloc: Global, rules: Items<Checked>) -> Result<Parts, AllocError>
        ensures { IfOk result (λ parts. parts ≡ record self { rules = rules }) }
    {
        let rules = Joint::new(alloc, rules)?;
        self.rules = rules;
        Ok(self)
    }

    pub fn with_pipelines(
        mut self,
        alloc: Global,
        pipelines: Items<Pipeline>,
    ) -> Result<Parts, AllocError>
        ensures { IfOk result (λ parts. parts ≡ record self { pipelines = pipelines }) }
    {
        let pipelines = Joint::new(alloc, pipelines)?;
        self.pipelines = pipelines;
        Ok(self)
    }

    pub fn with_connections(
        mut self,
        alloc: Global,
        connections: Items<(u64, Items<Text>)>,
    ) -> Result<Parts, AllocError>
        ensures { IfOk result (λ parts. parts ≡ record self { connections = connections }) }
    {
        let connections = Joint::new(alloc, connections)?;
        self.connections = connections;
        Ok(self)
    }

    pub fn with_lookups(
        mut self,
        alloc: Global,
        lookups: BTreeMap<String, LookupTable>,
    ) -> Result<Parts, AllocError>
        ensures { IfOk result (λ parts. parts ≡ record self { lookups = tables_of lookups }) }
    {
        let lookups = Joint::new(alloc, lookups)?;
        self.lookups = lookups;
        Ok(self)
    }

    pub fn with_groks(
        mut self,
        alloc: Global,
        groks: BTreeMap<String, String>,
    ) -> Result<Parts, AllocError>
        ensures { IfOk result (λ parts. parts ≡ record self { groks = table_of groks }) }
    {
        let groks = Joint::new(alloc, groks)?;
        self.groks = groks;
        Ok(self)
    }

    pub fn with_users(mut self, alloc: Global, users: Items<User>) -> Result<Parts, AllocError>
        ensures { IfOk result (λ parts. parts ≡ record self { users = users }) }
    {
        let users = Joint::new(alloc, users)?;
        self.users = users;
        Ok(self)
    }
}
