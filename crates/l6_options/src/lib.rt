//! The options of a run on a command line, for `clap`. What the words mean is tested, and not proved.
#![tactic(auto)]

use clap::{Arg, ArgMatches, Command, value_parser};
use l6_machine::Options;
use std::alloc::{AllocError, Global};

/// A command that takes the options of a run: `--store`, `--steps` and `--output`.
///
/// # Errors
///
/// Memory ran out.
pub fn with_options<'a>(command: Command<'a>, alloc: Global) -> Result<Command<'a>, AllocError> {
    let steps = Arg::new(alloc, "steps")
        .long("steps")
        .value_name("N")
        .help("Steps that the run may make, 0 to 1000000000")
        .value_parser(value_parser!(u64).range(0..=1_000_000_000))
        .default_value("1000000");
    let output = Arg::new(alloc, "output")
        .long("output")
        .value_name("N")
        .help("Bytes that the run may print, 0 to 16777216")
        .value_parser(value_parser!(u32).range(0..=16_777_216))
        .default_value("1048576");
    command.arg(store_option(alloc)?)?.arg(steps)?.arg(output)
}

/// The option for the size of a store.
///
/// # Errors
///
/// Memory ran out.
pub fn store_option<'a>(alloc: Global) -> Result<Arg<'a>, AllocError> {
    Ok(
        Arg::new(alloc, "store")
            .long("store")
            .value_name("M")
            .help("Units of 1024 words that the store has, 1 to 255")
            .value_parser(value_parser!(u32).range(1..=255))
            .default_value("8"),
    )
}

/// What was chosen for a run, where the command takes its options.
pub fn chosen_options(chosen: &ArgMatches<'_>) -> Option<Options> {
    let units = chosen.get_one::<u32>("store")?;
    let steps = chosen.get_one::<u64>("steps")?;
    let output = chosen.get_one::<usize>("output")?;
    Options::new(units, steps, output)
}
