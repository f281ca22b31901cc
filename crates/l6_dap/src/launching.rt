//! How a run is launched.

ghost use Rattle.std.specs.Prelude.{◌≡◌, ◌≤◌, length, IfOk, IfSome, Some};
ghost use Rattle.l6_asm.specs.Spells.{SpellsJust};
ghost use Rattle.l6_card.specs.Numerals.{most_deck_bytes};
ghost use Rattle.l6_dap.specs.Launching as spec;
ghost use Rattle.l6_dap.specs.inner.Asked.{arguments_of};
ghost use Rattle.l6_dap.specs.inner.Launched.{IsAsked, IsLaunched, IsLaunchedOf};
ghost use Rattle.l6_steps.specs.Numerals.{most_input};

use crate::debuggee::{Debuggee, Launch};
use crate::files::{FileFault, Files};
use crate::request::Request;
use l6_asm::{AsmFault, Assembly, assemble};
use l6_card::MAX_DECK_BYTES;
use l6_check::checked_text;
use l6_device::{Part, head_parts_of, parts_of};
use l6_machine::{Options, machine_under};
use l6_place::first_cards;
use l6_rpc::OutOfMemory;
use l6_session::{Names, Session};
use std::alloc::{AllocError, Global};

/// Why no run is launched.
#[derive(Drop)]
pub(crate) enum NotLaunched {
    /// In words.
    Because(String),
    /// Memory ran out.
    NoMemory,
}

impl From<AllocError> for NotLaunched {
    fn from(_error: AllocError) -> Self {
        NotLaunched::NoMemory
    }
}

impl From<OutOfMemory> for NotLaunched {
    fn from(_error: OutOfMemory) -> Self {
        NotLaunched::NoMemory
    }
}

/// What is said of options that are out of range.
const NO_OPTIONS: &str =
    "store is 1 to 255, steps at most 1,000,000,000 and output at most 16,777,216";

/// What a request asks for.
///
/// # Errors
///
/// It names no deck, or an option is out of range, or memory ran out.
fn launch_of(alloc: Global, request: Request<'_>) -> Result<Launch, NotLaunched>
    ensures { IfOk result (IsAsked (arguments_of request.entry)) }
{
    let Some(path) = request.text("program") else {
        return Err(because(alloc, "program is missing: the path of a deck")?);
    };
    let Some(options) = options_of(request) else {
        return Err(because(alloc, NO_OPTIONS)?);
    };
    let input = match request.text("input") {
        None => None,
        Some(path) => Some(String::from_str(alloc, path)?),
    };
    Ok(Launch {
        path: String::from_str(alloc, path)?,
        input,
        options,
        stops_on_entry: request.flag("stopOnEntry"),
        is_run_only: request.flag("noDebug"),
    })
}

/// The options that a request chooses, or none where one is out of range.
fn options_of(request: Request<'_>) -> Option<Options>
    ensures { IfSome result (λ options. spec.options_asked (arguments_of request.entry) ≡ Some options) }
{
    let standard = Options::default();
    let units = match request.value("store") {
        None => standard.units(),
        Some(value) => u32::try_from(value.as_u64()?).ok()?,
    };
    let steps = match request.value("steps") {
        None => standard.steps(),
        Some(value) => value.as_u64()?,
    };
    let output = match request.value("output") {
        None => standard.output(),
        Some(value) => usize::try_from(value.as_u64()?).ok()?,
    };
    Options::new(units, steps, output)
}

/// The run that a request launches, at its start.
///
/// # Errors
///
/// It can't be launched, or memory ran out.
pub(crate) fn launched<F: Files>(
    alloc: Global,
    files: &mut F,
    request: Request<'_>,
) -> Result<Debuggee, NotLaunched>
    ensures { IfOk result (spec.Launches (arguments_of request.entry)) }
{
    let launch = launch_of(alloc, request)?;
    debuggee_of(alloc, files, launch)
}

/// A run that is launched again, with the breakpoints and the watches that it had; or, if its deck has errors now, the
/// same run at its start.
///
/// # Errors
///
/// Memory ran out.
pub(crate) fn relaunched<F: Files>(
    alloc: Global,
    files: &mut F,
    before: Debuggee,
) -> Result<Debuggee, OutOfMemory>
    ensures { IfOk result (spec.Relaunches before) }
{
    match launched_again(alloc, files, &before) {
        Ok(again) => Ok(again),
        Err(NotLaunched::NoMemory) => Err(OutOfMemory),
        Err(NotLaunched::Because(_)) => Ok(before.at_start(alloc)),
    }
}

/// A run of the same launch as another one, with the breakpoints and the watches of that.
fn launched_again<F: Files>(
    alloc: Global,
    files: &mut F,
    before: &Debuggee,
) -> Result<Debuggee, NotLaunched>
    ensures { IfOk result (spec.LaunchesAgain before.now) }
{
    let launch = before.launch.copied()?;
    let mut again = debuggee_of(alloc, files, launch)?;
    again.take_stops(alloc, before)?;
    Ok(again)
}

/// The debuggee of a launch, at the start of its run.
///
/// # Errors
///
/// A file can't be read or is too long, or the deck has errors, or memory ran out.
fn debuggee_of<F: Files>(
    alloc: Global,
    files: &mut F,
    launch: Launch,
) -> Result<Debuggee, NotLaunched>
    ensures { IfOk result (IsLaunched launch) }
{
    let job = read(alloc, files, launch.path.as_str(), Part::Job)?;
    let parts = parts_of(job.as_slice());
    let deck = head_parts_of(parts.head).deck.to_vec(alloc)?;
    if deck.len() > MAX_DECK_BYTES {
        return Err(because(alloc, "the deck is too long")?);
    }
    let input = match &launch.input {
        None => parts.input.to_vec(alloc)?,
        Some(path) => read(alloc, files, path.as_str(), Part::Input)?,
    };
    if input.len() > Part::Input.limit() {
        return Err(because(alloc, "the input is too long")?);
    }
    begun(alloc, deck, input.as_slice(), launch)
}

/// The debuggee of a deck with an input, at the start of its run.
fn begun(
    alloc: Global,
    deck: Vec<u8>,
    input: &[u8],
    launch: Launch,
) -> Result<Debuggee, NotLaunched>
    requires deck { length deck.items ≤ most_deck_bytes }
    requires input { length input.now ≤ most_input }
    ensures { IfOk result (IsLaunchedOf launch deck.items input.now) }
{
    let (program, labels) = assembly_of(alloc, deck.as_slice())?.into_parts();
    let cards = first_cards(alloc, deck.as_slice())?;
    let names = Names::new(labels, deck, program.statements().len());
    let machine = machine_under(alloc, program, input, launch.options)?;
    Ok(Debuggee {
        session: Session::new(alloc, machine)?,
        names,
        first_cards: cards,
        launch,
        on_cards: Vec::new(alloc),
        on_labels: Vec::new(alloc),
        printed: 0,
    })
}

/// The program that a deck spells, with its labels; or what is wrong with the deck.
fn assembly_of(alloc: Global, deck: &[u8]) -> Result<Assembly, NotLaunched>
    requires { length deck.now ≤ most_deck_bytes }
    ensures { IfOk result (SpellsJust deck.now) }
{
    match assemble(alloc, deck) {
        Ok(assembly) => Ok(assembly),
        Err(AsmFault::NoMemory) => Err(NotLaunched::NoMemory),
        Err(_) => match checked_text(alloc, deck) {
            Ok(checked) => Err(NotLaunched::Because(checked.text)),
            Err(_) => Err(NotLaunched::NoMemory),
        },
    }
}

/// The bytes of a file.
fn read<F: Files>(
    alloc: Global,
    files: &mut F,
    path: &str,
    part: Part,
) -> Result<Vec<u8>, NotLaunched> {
    match files.read(alloc, path, part) {
        Ok(bytes) => Ok(bytes),
        Err(FileFault::NoMemory) => Err(NotLaunched::NoMemory),
        Err(fault) => Err(NotLaunched::Because(format!(in alloc; "{path}: {fault}")?)),
    }
}

/// Why no run is launched, in these words.
fn because(alloc: Global, why: &str) -> Result<NotLaunched, AllocError> {
    Ok(NotLaunched::Because(String::from_str(alloc, why)?))
}
