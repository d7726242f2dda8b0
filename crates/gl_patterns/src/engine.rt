// What searches for a program: it owns the program and what its engines write to, so it borrows nothing.
ghost use Rattle.std.specs.Prelude.{◌≡◌, ◌-◌, ◌≤◌, length, vec_len, is_some, option_map, IfOk, IfSome};
ghost use Rattle.regex_dfa.specs.Search.{IsForwardFor, IsForwardWithin, IsReverseFor, IsReverseWithin};
ghost use Rattle.regex_hir.specs.Find.{find_str};
ghost use Rattle.regex_hir.specs.Text.{is_boundary};
ghost use Rattle.regex_meta.specs.Located.{EndsAt};
ghost use Rattle.regex_meta.specs.Programs.{leftmost, pattern_of};
ghost use Rattle.regex_vm.specs.Found.{first_match, group_cells, span};
ghost use Rattle.regex.specs.Writes.{HasTextParts};

use regex_dfa::{End, Forward, Reverse, Start};
use regex_meta::Program;
use regex_vm::{Backtracker, PikeVm};
use std::alloc::{AllocError, Global};

// About how many bytes the states of each of the two automata may take.
const BUDGET: usize = 0x4_0000;

/// A program with its engines: an automaton that finds where the leftmost match ends, one that finds where it starts,
/// and two that find its groups. A search takes no memory that could be wanting: where an engine finds none, or its
/// states pass their budget, one that needs no more goes on.
pub struct Engine {
    pub program: Program,
    forward: Forward,
    reverse: Reverse,
    backtracker: Backtracker,
    pikevm: PikeVm,
    ghost forward_runs: { IsForwardFor forward program.dfa },
    ghost reverse_runs: { IsReverseFor reverse program.dfa },
    ghost forward_room: { IsForwardWithin forward 0x4_0000 },
    ghost reverse_room: { IsReverseWithin reverse 0x4_0000 },
    ghost pikevm_states: { pikevm.states ≡ vec_len program.dfa.nfa.states },
    ghost pikevm_groups: { pikevm.groups ≡ program.dfa.nfa.slot_count - 2 },
}

impl Engine {
    pub fn new(alloc: Global, program: Program) -> Result<Engine, AllocError>
        ensures { IfOk result (λ e. e.program ≡ program) }
    {
        let forward = Forward::with_budget(alloc, &program.dfa, false, BUDGET)?;
        let reverse = Reverse::with_budget(alloc, &program.dfa, BUDGET)?;
        let pikevm = PikeVm::new(alloc, &program.dfa.nfa)?;
        Ok(Engine {
            program,
            forward,
            reverse,
            backtracker: Backtracker::new(alloc),
            pikevm,
        })
    }

    /// The leftmost match in a text. `cells` gets the slots from 2 on, each a position plus one, or 0 for none.
    pub fn find_in_text(&mut self, hay: &[u8], cells: &mut [usize]) -> Option<(usize, usize)>
        requires width { length cells.old ≤ self.old.program.dfa.nfa.slot_count - 2 }
        ensures found { result ≡ option_map span (find_str (pattern_of self.old.program) hay.now 0) }
        ensures cells { IfSome (find_str (pattern_of self.old.program) hay.now 0) (λ m. cells.new ≡ group_cells m (length cells.old)) }
        ensures same { self.new.program ≡ self.old.program }
        ensures size { length cells.new ≡ length cells.old }
    {
        let mut at = 0;
        loop {
            let (from, end) = self.find(hay, at, cells)?;
            if is_cut(hay, from) {
                return Some((from, end));
            }
            // An empty match inside a character is none of a text.
            at = from + 1;
        }
    }

    /// Whether there is a match in a text, by an expression that reads whole characters.
    pub fn has_match_in_text(&mut self, hay: &[u8]) -> bool
        requires { HasTextParts (pattern_of self.old.program) }
        ensures found { result ≡ is_some (find_str (pattern_of self.old.program) hay.now 0) }
        ensures same { self.new.program ≡ self.old.program }
    {
        if self.program.min_len == 0 {
            return self.find_in_text(hay, &mut []).is_some();
        }
        // A match that isn't empty starts with a whole character.
        self.has_match(hay)
    }

    // Whether there is a match, which ends the search.
    fn has_match(&mut self, hay: &[u8]) -> bool
        ensures found { result ≡ is_some (leftmost self.old.program hay.now 0) }
        ensures same { self.new.program ≡ self.old.program }
    {
        let program = &self.program;
        match self
            .forward
            .find_end(&program.dfa, hay, 0, hay.len(), false, true)
        {
            End::At(_) => true,
            End::NoMatch => false,
            End::Idle(_) | End::GaveUp => self
                .step_by_step(hay, 0, hay.len(), hay.len(), &mut [])
                .is_some(),
        }
    }

    // The leftmost match that starts at or after `start`.
    fn find(&mut self, hay: &[u8], start: usize, cells: &mut [usize]) -> Option<(usize, usize)>
        requires start { start ≤ length hay.now }
        requires width { length cells.old ≤ self.old.program.dfa.nfa.slot_count - 2 }
        ensures found { result ≡ option_map span (leftmost self.old.program hay.now start) }
        ensures cells { IfSome (leftmost self.old.program hay.now start) (λ m. cells.new ≡ group_cells m (length cells.old)) }
        ensures same { self.new.program ≡ self.old.program }
        ensures size { length cells.new ≡ length cells.old }
    {
        let (from, end) = self.find_span(hay, start)?;
        if cells.is_empty() {
            return Some((from, end));
        }
        self.step_by_step(hay, from, from, end, cells)
    }

    fn find_span(&mut self, hay: &[u8], start: usize) -> Option<(usize, usize)>
        requires { start ≤ length hay.now }
        ensures found { result ≡ option_map span (leftmost self.old.program hay.now start) }
        ensures same { self.new.program ≡ self.old.program }
    {
        let program = &self.program;
        match self
            .forward
            .find_end(&program.dfa, hay, start, hay.len(), false, false)
        {
            End::At(end) => self.look_back(hay, start, end),
            End::NoMatch => None,
            End::Idle(_) | End::GaveUp => self.step_by_step(
                hay,
                start,
                hay.len(),
                hay.len(),
                &mut [],
            ),
        }
    }

    // The span of the leftmost match from `floor` on, which ends at `end`.
    fn look_back(&mut self, hay: &[u8], floor: usize, end: usize) -> Option<(usize, usize)>
        requires { EndsAt (pattern_of self.old.program) hay.now floor floor end }
        ensures found { result ≡ option_map span (leftmost self.old.program hay.now floor) }
        ensures same { self.new.program ≡ self.old.program }
    {
        let program = &self.program;
        match self.reverse.find_start(&program.dfa, hay, floor, end) {
            Start::At(from) => Some((from, end)),
            _ => self.step_by_step(hay, floor, end, end, &mut []),
        }
    }

    // Runs the program state by state, which also finds the groups.
    fn step_by_step(
        &mut self,
        hay: &[u8],
        start: usize,
        last: usize,
        stop: usize,
        cells: &mut [usize],
    ) -> Option<(usize, usize)>
        requires ordered { (start ≤ stop) × (last ≤ stop) × (stop ≤ length hay.now) }
        requires width { length cells.old ≤ self.old.program.dfa.nfa.slot_count - 2 }
        ensures found { result ≡ option_map span (first_match self.old.program.dfa.nfa hay.now stop start last) }
        ensures cells { IfSome (first_match self.old.program.dfa.nfa hay.now stop start last) (λ m. cells.new ≡ group_cells m (length cells.old)) }
        ensures same { self.new.program ≡ self.old.program }
        ensures size { length cells.new ≡ length cells.old }
    {
        let program = &self.program;
        let dfa = &program.dfa;
        let nfa = &dfa.nfa;
        match self.backtracker.find(nfa, hay, start, last, stop, cells) {
            Ok(found) => found,
            Err(_) => self.pikevm.find(nfa, hay, start, last, stop, cells),
        }
    }
}

// Written out, so that a proof of a caller sees one call in place of the drop of each field.
impl Drop for Engine {
    fn drop(self) {
        let Engine {
            program: _program,
            forward: _forward,
            reverse: _reverse,
            backtracker: _backtracker,
            pikevm: _pikevm,
        } = self;
    }
}

// Whether no character is cut there, for a place in a text.
fn is_cut(hay: &[u8], at: usize) -> bool
    ensures { result ≡ is_boundary hay.now at }
{
    if at >= hay.len() {
        return true;
    }
    (hay[at] < 0x80) | (hay[at] > 0xBF)
}
