// What the program does with its words.
ghost use Rattle.std.specs.Prelude.{◌≡◌, ◌≢◌, ◌⊎◌, ℕ, List, [], IfOk, IfSome, Ok};
ghost use Rattle.std.specs.Io.KnownBytes.{IsAtEnd, Keeps};
ghost use Rattle.gl_outside.specs.Disk.{Image, IsUnchanged, LeavesOnly, Tells};
ghost use Rattle.gl_gatelog.specs.declared.kind.Log.{Log};
ghost use Rattle.gl_fields.specs.declared.entry.Entry.{Entry};
ghost use Rattle.gl_fields.specs.declared.entry.Outcome.{Outcome};
ghost use Rattle.gl_node.specs.declared.node.Options.{Options};
ghost use Rattle.gl_node.specs.Damage.{IsDamaged};
ghost use Rattle.gl_node.specs.Moments.{LeftSince};
ghost use Rattle.gl_node.specs.Standing.{AreOptions, HasLimits, IsStore, Shows, StandsFor, base_of};
ghost use Rattle.gl_node.specs.State.{Base, opened, state_after};
ghost use Rattle.gl_cli.specs.Statuses.{open_status_of};
ghost use Rattle.gl_cli.specs.Words.{command_for, options_of};
ghost use Rattle.gl_cli.specs.Crashes.{ExitShows, IsUntouched, ShownAt};
ghost use Rattle.gl_cli.specs.Ends.{MayEnd, IsCheckStatus, EndsBy, SessionEnd, CheckEnd, CommandEnd, OfEvents, AnsweredAll, SaysDamaged, HasCauses};
ghost use Rattle.gl_cli.specs.Runs.{all_events, script_turns};

use crate::checking::write_check;
use crate::desk::Desk;
use crate::session::session;
use crate::status::{Command, Status};
use gl_base::Text;
use gl_node::{Node, OpenFault, Options, law_images_show_the_state};
use gl_outside::{Disk, Sink, Source};
use gl_patterns::PatternShop;
use std::alloc::{AllocError, Global};

// The sizes of a store that the words don't say otherwise.
const DEFAULT_OPTIONS: Options = Options {
    segment: 67_108_864,
    journal_limit: 1 << 36,
    index_limit: 1 << 40,
};

/// What the words of the command line ask for: `session STORE` or `check STORE`, where STORE isn't empty and doesn't begin
/// with `-`. Any other words are `Usage`, which takes no memory.
pub fn command_of(alloc: Global, words: &[Text]) -> Result<Command, AllocError>
    ensures command { IfOk result (λ command. command ≡ command_for words.now) }
    ensures usage { command_for words.now ≡ Command.Usage → result ≡ Ok Command.Usage }
{
    let _ = alloc;
    let [word, store] = words else {
        return Ok(Command::Usage);
    };
    if store.as_str().as_bytes().is_empty() {
        return Ok(Command::Usage);
    }
    if store.as_str().as_bytes().first() == Some(&b'-') {
        return Ok(Command::Usage);
    }
    match word.as_str() {
        "session" => Ok(Command::Session {
            store: store.copy()?,
            options: DEFAULT_OPTIONS,
        }),
        "check" => Ok(Command::Check {
            store: store.copy()?,
            options: DEFAULT_OPTIONS,
        }),
        _ => Ok(Command::Usage),
    }
}

/// How a session ends whose store isn't opened.
fn open_status(fault: OpenFault) -> Status
    ensures { result ≡ open_status_of fault }
{
    match fault {
        OpenFault::Damaged { log, area, at } => Status::Damaged { log, area, at },
        OpenFault::DiskFault => Status::DiskFault,
        OpenFault::OutOfMemory => Status::OutOfMemory,
    }
}

/// Opens the store, and runs the script.
fn run_session<D: Disk, S: Source, K: Sink>(
    alloc: Global,
    options: Options,
    disk: &mut D,
    source: &mut S,
    sink: &mut K,
) -> Status
    requires { AreOptions options }
    ensures statuses { (result ≢ Status.Usage) × (result ≢ Status.PatternFault) }
    ensures causes { HasCauses result
        (record { source = S.faults source.old; sink = K.faults sink.old; disk = D.faults disk.old; shop = 0 })
        (record { source = S.faults source.new; sink = K.faults sink.new; disk = D.faults disk.new; shop = 0 }) }
    ensures script { IfSome (S.left source.old) (λ script. EndsBy script result) }
    ensures whole { result ≡ Status.Done → IsAtEnd (S.left source.new) }
    ensures output { (base : Base) × HasLimits options base × IfSome (S.left source.old) (λ script. SessionEnd base script result (K.contents sink.old) (K.contents sink.new)) }
    ensures shown { Tells (D.state disk.old) → AnsweredAll result → (journal : List Entry) × (found : List Outcome) × Shows (D.state disk.old).reads journal found }
    ensures opened { Tells (D.state disk.old) → (journal : List Entry) (found : List Outcome) (shown : Shows (D.state disk.old).reads journal found)
        → IfSome (S.left source.old) (λ script. SessionEnd (base_of options (D.state disk.old).reads journal found shown) script result (K.contents sink.old) (K.contents sink.new)) }
    ensures shows { Tells (D.state disk.old) → (journal : List Entry) (found : List Outcome) (store : IsStore (D.state disk.old) journal found) → AnsweredAll result
        → IfSome (S.left source.old) (λ script. (image : Image) → (D.state disk.new).may_leave image
        → StandsFor image (state_after (opened (base_of options (D.state disk.old).reads journal found store.shows))
        (all_events (script_turns (base_of options (D.state disk.old).reads journal found store.shows) [] script)))) }
    ensures at_exit { Tells (D.state disk.old) → (journal : List Entry) (found : List Outcome) (store : IsStore (D.state disk.old) journal found)
        → IfSome (S.left source.old) (λ script. IsUntouched (D.state disk.old) (D.state disk.new) (K.contents sink.old) (K.contents sink.new)
        ⊎ ((image : Image) → (D.state disk.new).may_leave image
        → ShownAt (base_of options (D.state disk.old).reads journal found store.shows) script (K.contents sink.old) (K.contents sink.new) image)) }
    ensures any_moment { Tells (D.state disk.old) → (journal : List Entry) (found : List Outcome) (store : IsStore (D.state disk.old) journal found)
        → IfSome (S.left source.old) (λ script. LeavesOnly (D.state disk.old) (D.state disk.new)
        (LeftSince (opened (base_of options (D.state disk.old).reads journal found store.shows))
        (all_events (script_turns (base_of options (D.state disk.old).reads journal found store.shows) [] script)) (D.state disk.old))) }
    ensures damaged { Tells (D.state disk.old) → (log : Log) (area at : ℕ) → result ≡ Status.Damaged log area at → IsDamaged (D.state disk.old).reads log area at }
    ensures damaged_store { Tells (D.state disk.old) → (log : Log) (area at : ℕ) → IsDamaged (D.state disk.old).reads log area at
        → SaysDamaged result log area at × Keeps (K.contents sink.old) (K.contents sink.new) × IsUnchanged (D.state disk.old) (D.state disk.new) }
    ensures tells { (D.state disk.new).tells ≡ (D.state disk.old).tells }
{
    match Node::open(alloc, disk, options) {
        Err(fault) => open_status(fault),
        Ok(node) => {
            let mut desk = Desk::new(alloc, node);
            session(alloc, &mut desk, disk, source, sink)
        }
    }
}

/// Opens the store, and says what it holds.
fn run_check<D: Disk, K: Sink>(
    alloc: Global,
    options: Options,
    disk: &mut D,
    sink: &mut K,
) -> Status
    requires { AreOptions options }
    ensures statuses { IsCheckStatus result }
    ensures causes { HasCauses result
        (record { source = 0; sink = K.faults sink.old; disk = D.faults disk.old; shop = 0 })
        (record { source = 0; sink = K.faults sink.new; disk = D.faults disk.new; shop = 0 }) }
    ensures output { (base : Base) × HasLimits options base × CheckEnd base result (K.contents sink.old) (K.contents sink.new) }
    ensures shown { Tells (D.state disk.old) → AnsweredAll result → (journal : List Entry) × (found : List Outcome) × Shows (D.state disk.old).reads journal found }
    ensures opened { Tells (D.state disk.old) → (journal : List Entry) (found : List Outcome) (shown : Shows (D.state disk.old).reads journal found)
        → CheckEnd (base_of options (D.state disk.old).reads journal found shown) result (K.contents sink.old) (K.contents sink.new) }
    ensures at_exit { Tells (D.state disk.old) → (journal : List Entry) (found : List Outcome) (store : IsStore (D.state disk.old) journal found)
        → (IsUntouched (D.state disk.old) (D.state disk.new) (K.contents sink.old) (K.contents sink.new) × (AnsweredAll result → ⊥))
        ⊎ ((image : Image) → (D.state disk.new).may_leave image → StandsFor image (opened (base_of options (D.state disk.old).reads journal found store.shows))) }
    ensures any_moment { Tells (D.state disk.old) → (journal : List Entry) (found : List Outcome) (store : IsStore (D.state disk.old) journal found)
        → LeavesOnly (D.state disk.old) (D.state disk.new) (LeftSince (opened (base_of options (D.state disk.old).reads journal found store.shows)) [] (D.state disk.old)) }
    ensures damaged { Tells (D.state disk.old) → (log : Log) (area at : ℕ) → result ≡ Status.Damaged log area at → IsDamaged (D.state disk.old).reads log area at }
    ensures damaged_store { Tells (D.state disk.old) → (log : Log) (area at : ℕ) → IsDamaged (D.state disk.old).reads log area at
        → SaysDamaged result log area at × Keeps (K.contents sink.old) (K.contents sink.new) × IsUnchanged (D.state disk.old) (D.state disk.new) }
    ensures tells { (D.state disk.new).tells ≡ (D.state disk.old).tells }
{
    match Node::open(alloc, disk, options) {
        Err(fault) => open_status(fault),
        Ok(node) => {
            law_images_show_the_state(&node, disk);
            match write_check(alloc, &node, sink) {
                Err(status) => status,
                Ok(()) => Status::Done,
            }
        }
    }
}

/// Does all that the program does, and answers how it ended. It always returns.
///
/// A `session` opens the store on the disk and runs the script that the source gives, line by line:
/// the answers of a line are in the sink before more of the source is read. The first event that ends
/// the run is its status; what was written before it stays. A `check` opens the store, writes one line of what it holds,
/// and reads nothing; it changes the store only in that a log without a batch is begun.
pub fn run_command<D: Disk, P: PatternShop, S: Source, K: Sink>(
    alloc: Global,
    words: &[Text],
    disk: &mut D,
    shop: &mut P,
    source: &mut S,
    sink: &mut K,
) -> Status
    // `Usage` exactly where the words are no command, and then nothing is touched.
    ensures statuses { MayEnd (command_for words.now) result }
    ensures usage { command_for words.now ≡ Command.Usage → (disk.new ≡ disk.old) × (source.new ≡ source.old) × (sink.new ≡ sink.old) × (shop.new ≡ shop.old) }

    // A fault is told exactly where its object's count moved.
    ensures causes { HasCauses result
        (record { source = S.faults source.old; sink = K.faults sink.old; disk = D.faults disk.old; shop = P.faults shop.old })
        (record { source = S.faults source.new; sink = K.faults sink.new; disk = D.faults disk.new; shop = P.faults shop.new }) }

    // `BadScript`, `ScriptTooLong` and `Done` are those of the script, however the source cuts it; with `Done` it was read to its end.
    // `check` reads nothing.
    ensures script { (store : List ℕ) (options : Options) → command_for words.now ≡ Command.Session store options →
        IfSome (S.left source.old) (λ script. EndsBy script result) }
    ensures whole { (store : List ℕ) (options : Options) → command_for words.now ≡ Command.Session store options →
        result ≡ Status.Done → IsAtEnd (S.left source.new) }
    ensures unread { (store : List ℕ) (options : Options) → command_for words.now ≡ Command.Check store options → source.new ≡ source.old }

    // What the sink gained: with `Done` the whole output, where the script ends the run the answers of the
    // lines that are run, and else a front of the output; whatever the disk tells, from some opening with the limits that are
    // asked for, and from what the disk shows where it tells it.
    ensures output { (base : Base) × HasLimits (options_of (command_for words.now)) base × CommandEnd (command_for words.now) base (S.left source.old) result (K.contents sink.old) (K.contents sink.new) }
    ensures opened { Tells (D.state disk.old) → (journal : List Entry) (found : List Outcome) (shown : Shows (D.state disk.old).reads journal found) →
        CommandEnd (command_for words.now) (base_of (options_of (command_for words.now)) (D.state disk.old).reads journal found shown) (S.left source.old) result (K.contents sink.old) (K.contents sink.new) }

    // Where each line that is run was answered, the disk showed a store.
    ensures shown { Tells (D.state disk.old) → AnsweredAll result → (journal : List Entry) × (found : List Outcome) × Shows (D.state disk.old).reads journal found }

    // Where each line that is run was answered, each image that a crash may leave shows the state after all their events.
    ensures shows { Tells (D.state disk.old) → (journal : List Entry) (found : List Outcome) (store : IsStore (D.state disk.old) journal found) → AnsweredAll result →
        OfEvents (command_for words.now) (base_of (options_of (command_for words.now)) (D.state disk.old).reads journal found store.shows) (S.left source.old)
        (λ events. (image : Image) → (D.state disk.new).may_leave image →
        StandsFor image (state_after (opened (base_of (options_of (command_for words.now)) (D.state disk.old).reads journal found store.shows)) events)) }

    // However it ends: each image that a crash may leave holds each event whose answer has a byte in the sink; or nothing was
    // written, and the disk is as it was.
    ensures at_exit { Tells (D.state disk.old) → (journal : List Entry) (found : List Outcome) (store : IsStore (D.state disk.old) journal found) →
        ExitShows (command_for words.now) (base_of (options_of (command_for words.now)) (D.state disk.old).reads journal found store.shows)
        (S.left source.old) (K.contents sink.old) (K.contents sink.new) (D.state disk.old) (D.state disk.new) }

    // A crash at any moment leaves what it might leave before, or the state after some of the first of the events.
    ensures any_moment { Tells (D.state disk.old) → (journal : List Entry) (found : List Outcome) (store : IsStore (D.state disk.old) journal found) →
        OfEvents (command_for words.now) (base_of (options_of (command_for words.now)) (D.state disk.old).reads journal found store.shows) (S.left source.old)
        (λ events. LeavesOnly (D.state disk.old) (D.state disk.new)
        (LeftSince (opened (base_of (options_of (command_for words.now)) (D.state disk.old).reads journal found store.shows)) events (D.state disk.old))) }

    // A damaged store is told as such and never run, no byte is written to the sink, and it is left as it is.
    ensures damaged { Tells (D.state disk.old) → (log : Log) (area at : ℕ) → result ≡ Status.Damaged log area at → IsDamaged (D.state disk.old).reads log area at }
    ensures damaged_store { Tells (D.state disk.old) → (log : Log) (area at : ℕ) → IsDamaged (D.state disk.old).reads log area at
        → (command_for words.now ≡ Command.Usage) ⊎ (SaysDamaged result log area at × Keeps (K.contents sink.old) (K.contents sink.new) × IsUnchanged (D.state disk.old) (D.state disk.new)) }
    ensures tells { (D.state disk.new).tells ≡ (D.state disk.old).tells }
{
    let _ = shop;
    match command_of(alloc, words) {
        Err(_) => Status::OutOfMemory,
        Ok(Command::Usage) => Status::Usage,
        Ok(Command::Session { options, .. }) => run_session(alloc, options, disk, source, sink),
        Ok(Command::Check { options, .. }) => run_check(alloc, options, disk, sink),
    }
}
