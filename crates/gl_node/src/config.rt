// What messages are processed by.
ghost use Rattle.std.specs.Prelude.{◌≡◌, ◌↔◌, IfOk, IsTrue};
ghost use Rattle.std.specs.List.{position};
ghost use Rattle.std.specs.Str.{bytes_eq};
ghost use Rattle.gl_node.specs.Configuration.{initial_config, input_named, is_input, kind_of};

use gl_base::{Items, Text};
use gl_fields::InputKind;
use std::alloc::{AllocError, Global};

/// An input: the name by which senders reach it, and what decodes its payloads.
#[derive(Drop)]
pub struct Input {
    pub name: Text,
    pub kind: InputKind,
}

/// A configuration of the server: its version, which is the number of commands that made it, and its
/// inputs, no two of one name. There are no commands yet, so the version is 0 and the inputs are `raw`,
/// `gelf` and `syslog`.
#[derive(Drop)]
pub struct Config {
    pub version: u64,
    pub inputs: Items<Input>,
}

impl Input {
    fn named(alloc: Global, name: &str, kind: InputKind) -> Result<Input, AllocError>
        ensures { IfOk result (λ input. input ≡ input_named name.now kind) }
    {
        Ok(Input {
            name: Text::from_str(alloc, name)?,
            kind,
        })
    }

    fn copy(&self) -> Result<Input, AllocError>
        ensures { IfOk result (λ input. input ≡ self.now) }
    {
        Ok(Input {
            name: self.name.copy()?,
            kind: self.kind,
        })
    }

    fn same(&self, other: &Input) -> bool
        ensures { IsTrue result ↔ (self.now ≡ other.now) }
    {
        self.kind == other.kind && self.name.same(&other.name)
    }
}

impl Config {
    /// The configuration of a new store.
    pub fn initial(alloc: Global) -> Result<Config, AllocError>
        ensures { IfOk result (λ config. config ≡ initial_config) }
    {
        let mut inputs = Items::with_capacity(alloc, 3)?;
        inputs.push(Input::named(alloc, "raw", InputKind::Raw)?)?;
        inputs.push(Input::named(alloc, "gelf", InputKind::Gelf)?)?;
        inputs.push(Input::named(alloc, "syslog", InputKind::Syslog)?)?;
        Ok(Config { version: 0, inputs })
    }

    /// Where the input with this name stands among the inputs.
    pub(crate) fn place_of(&self, input: &str) -> Option<usize>
        ensures { result ≡ position (λ i. bytes_eq input.now i.name) self.now.inputs }
    {
        self.inputs
            .as_slice()
            .iter()
            .position(|known| input.as_bytes() == known.name.as_str().as_bytes())
    }

    /// What decodes the payloads of the input with this name; `None` where no input has it.
    pub fn kind_of(&self, input: &str) -> Option<InputKind>
        ensures { result ≡ kind_of self.now input.now }
    {
        self.inputs
            .as_slice()
            .iter()
            .find(|known| input.as_bytes() == known.name.as_str().as_bytes())
            .map(|known| known.kind)
    }

    /// Whether an input has this name.
    pub fn knows(&self, input: &str) -> bool
        ensures { result ≡ is_input self.now input.now }
    {
        self.kind_of(input).is_some()
    }

    /// An equal configuration of its own.
    pub fn copy(&self, alloc: Global) -> Result<Config, AllocError>
        ensures { IfOk result (λ config. config ≡ self.now) }
    {
        let mut inputs = Items::new(alloc);
        for input in self.inputs.as_slice() {
            inputs.push(input.copy()?)?;
        }
        Ok(Config {
            version: self.version,
            inputs,
        })
    }

    /// Whether both are equal.
    pub fn same(&self, other: &Config) -> bool
        ensures { IsTrue result ↔ (self.now ≡ other.now) }
    {
        self.version == other.version
            && same_inputs(self.inputs.as_slice(), other.inputs.as_slice())
    }
}

// Whether both have the same inputs, in the same order.
fn same_inputs(inputs: &[Input], others: &[Input]) -> bool
    ensures { IsTrue result ↔ (inputs.now ≡ others.now) }
{
    if inputs.len() != others.len() {
        return false;
    }
    for (index, input) in inputs.iter().enumerate() {
        if !input.same(&others[index]) {
            return false;
        }
    }
    true
}
