//! The options of `trace`. What the words mean is tested, and not proved.

use crate::tracing::Trying;
use clap::{Arg, ArgAction, ArgMatches, Command, value_parser};
use l6_options::store_option;
use l6_trace::{Form, Pool};
use std::alloc::{AllocError, Global};

/// The option that all others of a judged trace go with.
const ANY_PLACE: &str = "any-place";

/// A command with the options of `trace`.
///
/// # Errors
///
/// Memory ran out.
pub(crate) fn with_trace_options<'a>(
    command: Command<'a>,
    alloc: Global,
) -> Result<Command<'a>, AllocError> {
    command
        .arg(store_option(alloc)?.conflicts_with(ANY_PLACE)?)?
        .arg(flag(
            alloc,
            ANY_PLACE,
            "Judge the answers, whatever the allocator's rule of choice",
        ))?
        .arg(number(
            alloc,
            "levels",
            "K",
            "The largest block has 2^K smallest pieces, 0 to 20",
            0,
            20,
        )?
        .default_value("10"))?
        .arg(number(
            alloc,
            "units",
            "N",
            "The allocator has so many of these, 1 to 16777216",
            1,
            16_777_216,
        )?
        .default_value("8"))?
        .arg(number(
            alloc,
            "first",
            "P",
            "Its first place, in smallest pieces; 2^K without this option",
            0,
            16_777_216,
        )?)?
        .arg(number(
            alloc,
            "piece",
            "BYTES",
            "Sizes and places are in bytes, and the smallest piece has so many",
            1,
            999_999_999,
        )?
        .default_value("1"))?
        .arg(flag(
            alloc,
            "json",
            "Write a JSON object for each finding, and one for the summary",
        )
        .requires_arg(ANY_PLACE)?)
}

/// An option that is given or not.
fn flag<'a>(alloc: Global, name: &'a str, help: &'a str) -> Arg<'a> {
    Arg::new(alloc, name)
        .long(name)
        .help(help)
        .action(ArgAction::SetTrue)
}

/// An option of a judged trace that takes a number between two others.
fn number<'a>(
    alloc: Global,
    name: &'a str,
    value: &'a str,
    help: &'a str,
    least: i64,
    most: i64,
) -> Result<Arg<'a>, AllocError> {
    Arg::new(alloc, name)
        .long(name)
        .value_name(value)
        .help(help)
        .value_parser(value_parser!(u32).range(least..=most))
        .requires_arg(ANY_PLACE)
}

/// How the answers of a trace are to be tried.
pub(crate) fn chosen_trying(chosen: &ArgMatches<'_>) -> Option<Trying> {
    if !chosen.get_flag(ANY_PLACE) {
        return Some(Trying::Exact {
            units: chosen.get_one::<u32>("store")?,
        });
    }
    let levels = chosen.get_one::<u32>("levels")?;
    let first = match chosen.get_one::<u32>("first") {
        Some(first) => first,
        None => 1_u32.checked_shl(levels)?,
    };
    Some(Trying::AnyPlace {
        pool: Pool {
            largest: u8::try_from(levels).ok()?,
            units: chosen.get_one::<u32>("units")?,
            first,
        },
        piece: chosen.get_one::<u32>("piece")?,
        form: if chosen.get_flag("json") {
            Form::Json
        } else {
            Form::Text
        },
    })
}
