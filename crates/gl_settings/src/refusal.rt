// Why a command is refused.
ghost use Rattle.std.specs.Prelude.{◌≡◌};
ghost use Rattle.gl_settings.specs.declared.refusal.ConfigRefusal.TheVariants.{OutOfMemory};

use gl_check::CheckRefusal;
use gl_extract::ExtractRefusal;
use gl_grok::GrokRefusal;
use gl_lookup::LookupRefusal;
use gl_rulelang::TextRefusal;
use std::alloc::AllocError;

/// What is wrong with a text of a command. A refusal inside another is never that of memory.
#[derive(Drop)]
pub enum Text {
    /// The source of a rule or a pipeline doesn't read.
    Rule(TextRefusal),
    /// A rule reads, and one of its calls or operations isn't lawful.
    Check(CheckRefusal),
    /// A pattern isn't expanded.
    Grok(GrokRefusal),
    /// A text makes no lookup table.
    Csv(LookupRefusal),
    /// Parts make no extractor.
    Extract(ExtractRefusal),
    /// A value isn't a whole number of 64 bits with a sign, or an index set would keep no index.
    Number,
    /// A token's hash isn't 64 lower-case hexadecimal digits.
    Hash,
}

/// What a configuration has at most.
#[derive(Clone, Copy)]
pub enum Bound {
    /// 32.
    Inputs,
    /// 16.
    IndexSets,
    /// 128.
    Streams,
    /// 32 in each stream.
    StreamRules,
    /// 256.
    Rules,
    /// 64.
    Pipelines,
    /// 16.
    Lookups,
    /// 128.
    Groks,
    /// 256.
    Users,
    /// 32 of each input.
    Extractors,
    /// 64, each counted where it stands.
    Patterns,
    /// 64 pipelines of each stream, counted as they were given.
    Connected,
}

/// Why a command is refused.
#[derive(Drop)]
pub enum ConfigRefusal {
    /// The command was made for another version than the present one.
    VersionConflict { present: u64 },
    /// What would be created is there, or another user has the token's hash.
    NameTaken,
    /// What would be changed, or is named, isn't there; the default stream can't be changed.
    UnknownName,
    /// The command's own name, or the field of a rule, isn't of the form.
    BadName,
    BadText(Text),
    /// The shop of patterns refused a pattern of the next configuration.
    PatternRefused,
    /// The next configuration would have more than this many.
    Limit { which: Bound, limit: u64 },
    /// The bytes of all patterns would be more than this many.
    Budget { sum: u64, limit: u64 },
    OutOfMemory,
}

impl From<AllocError> for ConfigRefusal {
    ghost from_gives = { λ _ e. e ≡ OutOfMemory };

    fn from(_: AllocError) -> ConfigRefusal {
        ConfigRefusal::OutOfMemory
    }
}
