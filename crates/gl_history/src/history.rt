// The versions of a journal that are still needed.
ghost use Rattle.std.specs.Prelude.{◌≡◌, ◌≤◌, ◌<◌, ◌+◌, ◌++◌, ◌∷◌, [], ℕ, List, length, max, find, drop, nat_lt, nat_le, IfOk, OnOk};
ghost use Rattle.std.specs.List.{prefix_len};
ghost use Rattle.std.specs.VecDeque.{deque_capacity};
ghost use Rattle.gl_fields.specs.declared.entry.Entry.{Entry};
ghost use Rattle.gl_fields.specs.declared.entry.Entry.TheVariants.{Admin};
ghost use Rattle.gl_fields.specs.Entries.{version_after};
ghost use Rattle.gl_settings.specs.Settings.{initial_settings};
ghost use Rattle.gl_history.specs.Versions.{config_at, config_after, version_at};
ghost use Rattle.gl_history.specs.History.{Remembers, next_command, streams_at};

use gl_config::Config;
use std::alloc::{AllocError, Global};
use std::collections::VecDeque;
use std::marker::Model;

/// The configurations from some version on, the present one always among them, and of all versions where their commands
/// stand in the journal and how many streams they have.
#[derive(Drop)]
pub struct History {
    from: u64,
    configs: VecDeque<Config>,
    commands: Vec<u64>,
    counts: Vec<u64>,
}

impl Model for History {
    ghost use Rattle.gl_history.specs.History.{Kept, IsWhole};
    ghost use Rattle.gl_history.specs.Keeping.{kept_code};

    ghost Value = { Kept };

    ghost coded = { kept_code };

    ghost use Rattle.gl_history.specs.Keeping.{kept_of};

    ghost view = { kept_of };

    ghost invariant = { λ h. IsWhole (kept_of h) };
}

impl History {
    /// That of an empty journal, whose configuration is that of a new store.
    pub fn new(alloc: Global, config: Config) -> Result<History, AllocError>
        requires { config ≡ initial_settings }
        ensures { IfOk result (λ h. Remembers h [] 0) }
    {
        let count = config.streams().len() as u64;
        let mut configs = VecDeque::new(alloc);
        configs.push_back(config)?;
        let mut counts = Vec::new(alloc);
        counts.push(count)?;
        Ok(History {
            from: 0,
            configs,
            commands: Vec::new(alloc),
            counts,
        })
    }

    /// The first version whose configuration is remembered.
    pub fn first_version(&self) -> u64
        ensures { result ≡ self.now.from }
    {
        self.from
    }

    /// The present version, which is the last that is remembered.
    pub fn last_version(&self) -> u64
        ensures { result + 1 ≡ self.now.from + length self.now.configs }
    {
        self.commands.len() as u64
    }

    /// The configuration of a version that is remembered.
    pub fn config(&self, version: u64) -> &Config
        requires from { self.now.from ≤ version }
        requires within { version < self.now.from + length self.now.configs }
        ensures { (journal : List Entry) (from : ℕ) → Remembers self.now journal from → result.now ≡ config_at journal version }
    {
        &self.configs[(version - self.from) as usize]
    }

    /// The present configuration.
    pub fn present(&self) -> &Config
        ensures { (journal : List Entry) (from : ℕ) → Remembers self.now journal from → result.now ≡ config_after journal }
    {
        &self.configs[self.configs.len() - 1]
    }

    /// The version of the entry at a position of the journal: how many commands stand before it.
    pub fn version_of(&self, position: u64) -> u64
        ensures { (journal : List Entry) (from : ℕ) → Remembers self.now journal from → result ≡ version_at journal position }
    {
        commands_before(self.commands.as_slice(), position)
    }

    /// How many streams a version has, also one before those that are remembered: their ids are 1 to that number.
    pub fn streams_at(&self, version: u64) -> u64
        requires { version < self.now.from + length self.now.configs }
        ensures { (journal : List Entry) (from : ℕ) → Remembers self.now journal from → result ≡ streams_at journal version }
    {
        self.counts[version as usize]
    }

    /// The position of the first command at or behind this one, if there is one.
    pub fn next_command_from(&self, position: u64) -> Option<u64>
        ensures { (journal : List Entry) (from : ℕ) → Remembers self.now journal from → result ≡ next_command journal position }
    {
        command_from(self.commands.as_slice(), position)
    }

    /// Makes room for one command more. An error leaves what is remembered.
    pub fn reserve(&mut self) -> Result<(), AllocError>
        ensures ok { OnOk result (0 < self.new.room) }
        ensures same { self.new ≡ record self.old { room = self.new.room } }
    {
        self.configs.reserve(1)?;
        self.commands.reserve(1)?;
        self.counts.reserve(1)?;
        Ok(())
    }

    /// Remembers the configuration that a command at this position of the journal made. It takes no memory.
    pub fn push(&mut self, config: Config, position: u64)
        requires { 0 < self.old.room }
        ensures { (journal : List Entry) (text : List ℕ) (from : ℕ) → Remembers self.old journal from → position ≡ length journal
            → config ≡ config_after (journal ++ Admin text ∷ []) → Remembers self.new (journal ++ Admin text ∷ []) from }
    {
        self.counts.push_reserved(config.streams().len() as u64);
        self.commands.push_reserved(position);
        self.configs.push_back_reserved(config);
    }

    /// Forgets the configurations before this version, which is at most the present one. It takes no memory.
    pub fn forget_below(&mut self, version: u64)
        requires { version < self.old.from + length self.old.configs }
        ensures remembers { (journal : List Entry) (from : ℕ) → Remembers self.old journal from → Remembers self.new journal (max from version) }
        ensures room { self.old.room ≤ self.new.room }
    {
        if self.from < version {
            drop_front(&mut self.configs, version - self.from);
            self.from = version;
        }
    }
}

/// Takes so many configurations away at the front.
fn drop_front(configs: &mut VecDeque<Config>, count: u64)
    ensures items { configs.new.items ≡ drop count configs.old.items }
    ensures capacity { deque_capacity configs.new ≡ deque_capacity configs.old }
{
    for index in 0..count {
        let _ = configs.pop_front();
    }
}

/// How many of these rising positions are before this one.
fn commands_before(commands: &[u64], position: u64) -> u64
    ensures { result ≡ prefix_len (λ command. nat_lt command position) commands.now }
{
    for (index, command) in commands.iter().enumerate() {
        if *command >= position {
            return index as u64;
        }
    }
    commands.len() as u64
}

/// The first of these positions that is at or behind this one.
fn command_from(commands: &[u64], position: u64) -> Option<u64>
    ensures { result ≡ find (nat_le position) commands.now }
{
    commands
        .iter()
        .copied()
        .find(|command| position <= *command)
}
