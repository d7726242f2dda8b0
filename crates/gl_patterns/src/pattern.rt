// A pattern of text, which owns its compiled expression and all that a search writes to.
ghost use Rattle.std.specs.Prelude.{◌≡◌, ◌≤◌, ◌-◌, ℕ, ◌<◌, All, IfOk, IsOk, IfErr, IfSome, List, None, is_some, length, option_and_then, slice_index_or};
ghost use Rattle.regex.specs.Patterns.{find_str, default_config};
ghost use Rattle.regex.specs.Sources.{HandsOn, IsRefusal};
ghost use Rattle.regex.specs.Failures.{IsRightKind};
ghost use Rattle.regex_meta.specs.Programs.{pattern_of};
ghost use Rattle.gl_patterns.specs.Built.{IsBuilt, IsMade, FitsCells};
ghost use Rattle.gl_patterns.specs.Patterns.{is_found, group_in, group_called, named_in, span_of, IsPattern, CutsIn};
ghost use Rattle.regex.specs.Writes.{HasTextParts};

use crate::engine::Engine;
use crate::spans::{clear_spans, fill_spans, index_of, span_of};
use regex_meta::Program;
use regex_syntax::{Config, ErrorKind, Parsed};
use std::alloc::{AllocError, Global};
use std::marker::Model;

// About how many bytes the tables of an expression may take.
const SIZE_LIMIT: usize = 10 << 20;

/// A pattern of text, in the syntax of `regex`. Contracts see it as its text, which means what `regex` defines for it.
///
/// It keeps what a search works out of the expression, so a later search is faster: about 256 KiB for each of two automata,
/// and as much again where a Unicode word assertion stands in it. No search takes memory that could be wanting.
#[derive(Drop)]
pub struct Pattern {
    source: String,
    names: Vec<Option<String>>,
    engine: Engine,
    // what a search leaves of the groups
    cells: Vec<usize>,
}

impl Model for Pattern {
    ghost use Rattle.std.specs.Prelude.{ℕ, List, length, string_bytes};
    ghost use Rattle.regex.specs.Names.{names_of};
    ghost use Rattle.gl_patterns.specs.Built.{IsBuilt};

    ghost Value = { List ℕ };

    ghost view = { λ p. string_bytes p.source };

    ghost invariant = { λ p. IsBuilt (string_bytes p.source) (names_of p.names.items) p.engine.program (length p.cells.items) };
}

impl Pattern {
    /// Compiles the text. Each error but `OutOfMemory` is a refusal of this text, of the kind that `regex` gives it.
    pub fn new(alloc: Global, text: &str) -> Result<Pattern, regex::Error>
        ensures text { IfOk result (λ p. p ≡ text.now) }
        ensures read { IsOk result → IsPattern text.now }
        ensures refusal { IfErr result (IsRefusal default_config text.now) }
        ensures kind { IfErr result (IsRightKind default_config text.now) }
    {
        let Parsed { hir, names } = match regex_syntax::parse(alloc, text, &Config::default()) {
            Ok(parsed) => parsed,
            Err(error) => return Err(refusal_of(error)),
        };
        let Ok(groups) = u32::try_from(names.len()) else {
            return Err(regex::Error::CompiledTooBig);
        };
        let source = String::from_str(alloc, text)?;
        let cells = vec![in alloc; 0usize; 2 * (names.len() - 1)]?;
        let program = Program::new(alloc, hir, groups, SIZE_LIMIT)?;
        let engine = Engine::new(alloc, program)?;
        Ok(Pattern {
            source,
            names,
            engine,
            cells,
        })
    }

    /// Whether the pattern matches somewhere in the text. It answers `Ok`.
    pub fn found(&mut self, text: &str) -> Result<bool, AllocError>
        ensures value { IfOk result (λ yes. yes ≡ is_found self.old text.now) }
        ensures ok { IsOk result }
        ensures same { self.new ≡ self.old }
    {
        Ok(self.engine.has_match_in_text(text.as_bytes()))
    }

    /// The bytes from which to before which a group took part in the first match, group 0 being the whole match. `None`
    /// where the pattern isn't found, the group took no part, or there is no such group. It answers `Ok`.
    pub fn group(&mut self, text: &str, group: u32) -> Result<Option<(usize, usize)>, AllocError>
        ensures value { IfOk result (λ span. span ≡ group_in self.old text.now group) }
        ensures cuts { IfOk result (λ span. IfSome span (CutsIn text.now)) }
        ensures ok { IsOk result }
        ensures same { self.new ≡ self.old }
    {
        Ok(group_of_first(
            &mut self.engine,
            self.cells.as_mut_slice(),
            text,
            group as usize,
        ))
    }

    /// The same of the first group with this name; `None` also where no group has it. It answers `Ok`.
    pub fn named(&mut self, text: &str, name: &str) -> Result<Option<(usize, usize)>, AllocError>
        ensures value { IfOk result (λ span. span ≡ named_in self.old text.now name.now) }
        ensures cuts { IfOk result (λ span. IfSome span (CutsIn text.now)) }
        ensures ok { IsOk result }
        ensures same { self.new ≡ self.old }
    {
        let Some(index) = index_of(&self.names, name) else {
            return Ok(None);
        };
        Ok(group_of_first(&mut self.engine, self.cells.as_mut_slice(), text, index))
    }

    /// Whether the pattern matches somewhere in the text; the n-th place gets what group n spans in the first match,
    /// `None` as `group` answers it. It is one search for all groups.
    pub fn groups(&mut self, text: &str, spans: &mut [Option<(usize, usize)>]) -> bool
        ensures found { result ≡ is_found self.old text.now }
        ensures size { length spans.new ≡ length spans.old }
        ensures each { (n : ℕ) → n < length spans.old → slice_index_or spans.new n None ≡ group_in self.old text.now n }
        ensures cuts { (n : ℕ) → n < length spans.old → IfSome (slice_index_or spans.new n None) (CutsIn text.now) }
        ensures same { self.new ≡ self.old }
    {
        groups_of_first(&mut self.engine, self.cells.as_mut_slice(), text, spans)
    }

    /// How many groups it has, the whole match counted as group 0. The number of each group is below that.
    pub fn group_count(&self) -> usize
        ensures { (name : List ℕ) → IfSome (group_called self.now name) (λ n. n < result) }
    {
        self.names.len()
    }

    /// The number of the first group with this name.
    pub fn group_of_name(&self, name: &str) -> Option<u32>
        ensures { result ≡ group_called self.now name.now }
    {
        match index_of(&self.names, name) {
            Some(index) => Some(index as u32),
            None => None,
        }
    }
}

/// What an error of the parser says of the text.
fn refusal_of(error: regex_syntax::Error) -> regex::Error
    ensures same { HandsOn error result }
    ensures kind { (config : _) (source : List ℕ) → IsRightKind config source result }
{
    match error.kind {
        ErrorKind::OutOfMemory => regex::Error::OutOfMemory,
        _ => regex::Error::Syntax(error),
    }
}

/// What a group of the expression spans in its first match.
fn group_of_first(
    engine: &mut Engine,
    cells: &mut [usize],
    text: &str,
    index: usize,
) -> Option<(usize, usize)>
    requires { IsMade engine.old.program (length cells.old) }
    ensures value { result ≡ option_and_then (span_of index) (find_str (pattern_of engine.old.program) text.now 0) }
    ensures cuts { IfSome result (CutsIn text.now) }
    ensures same { engine.new.program ≡ engine.old.program }
    ensures size { length cells.new ≡ length cells.old }
{
    let whole = engine.find_in_text(text.as_bytes(), cells)?;
    span_of(whole, cells, index)
}

/// What each group of the expression spans in its first match, and whether there is one.
fn groups_of_first(
    engine: &mut Engine,
    cells: &mut [usize],
    text: &str,
    spans: &mut [Option<(usize, usize)>],
) -> bool
    requires { IsMade engine.old.program (length cells.old) }
    ensures found { result ≡ is_some (find_str (pattern_of engine.old.program) text.now 0) }
    ensures same { engine.new.program ≡ engine.old.program }
    ensures size { (length cells.new ≡ length cells.old) × (length spans.new ≡ length spans.old) }
    ensures each { (n : ℕ) → n < length spans.old → slice_index_or spans.new n None ≡ option_and_then (span_of n) (find_str (pattern_of engine.old.program) text.now 0) }
    ensures cuts { (n : ℕ) → n < length spans.old → IfSome (slice_index_or spans.new n None) (CutsIn text.now) }
{
    let Some(whole) = engine.find_in_text(text.as_bytes(), cells) else {
        clear_spans(spans);
        return false;
    };
    fill_spans(whole, cells, spans);
    true
}
