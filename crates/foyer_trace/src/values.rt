//! The values of options.

use crate::failure::Failure;
use crate::key::Sample;
use crate::nearest::unknown;
use crate::number::{count, decimal, fraction};
use crate::plan::Warmup;
use crate::trace::Terms;
use clap::ArgMatches;
use std::alloc::Global;

/// Returns the trace's name, whose ending tells its format. Refuses a compressed file.
pub fn name_of<'a>(
    alloc: Global,
    matches: &ArgMatches<'a>,
    path: &'a str,
) -> Result<&'a str, Failure> {
    const READERS: [(&str, &str); 4] = [
        (".zst", "zstdcat"),
        (".gz", "zcat"),
        (".xz", "xzcat"),
        (".bz2", "bzcat"),
    ];
    for (ending, reader) in READERS {
        if path.ends_with(ending) {
            return Err(Failure::Usage(format!(in alloc;
                "{path} is compressed: say {reader} {path} | foyer-trace - --format .."
            )?));
        }
    }
    match matches.get_str("name") {
        Some(name) if path == "-" => Ok(name),
        Some(_) => Err(Failure::Usage(format!(in alloc; "--name is for standard input")?)),
        None => Ok(path),
    }
}

/// Parses an option that is a number from 1.
pub fn counted(
    alloc: Global,
    matches: &ArgMatches<'_>,
    name: &str,
) -> Result<Option<usize>, Failure> {
    let Some(word) = matches.get_str(name) else {
        return Ok(None);
    };
    match decimal(word.as_bytes()) {
        Some(number) if number > 0 => Ok(Some(number as usize)),
        _ => Err(Failure::Usage(format!(in alloc;
            "--{name} must be a number from 1, and not '{word}'"
        )?)),
    }
}

/// Parses how records become requests.
pub fn terms_of(alloc: Global, matches: &ArgMatches<'_>) -> Result<Terms, Failure> {
    let weighs_sizes = match matches.get_str("weigh") {
        None | Some("one") => false,
        Some("size") => true,
        Some(word) => return Err(unknown(alloc, "weight", word, &["one", "size"])),
    };
    let ttl = match matches.get_str("ttl") {
        None => None,
        Some(word) => match count(word) {
            Some(ttl) if ttl > 0 => Some(ttl),
            _ => return Err(Failure::Usage(format!(in alloc;
                "--ttl must be a number from 1, and not '{word}'"
            )?)),
        },
    };
    Ok(Terms { weighs_sizes, ttl })
}

/// Parses the wanted miss ratio.
pub fn target_of(alloc: Global, matches: &ArgMatches<'_>) -> Result<Option<f64>, Failure> {
    let Some(word) = matches.get_str("target") else {
        return Ok(None);
    };
    match fraction(word) {
        Some(ratio) if ratio <= 1.0 => Ok(Some(ratio)),
        _ => Err(Failure::Usage(format!(in alloc;
            "--target must be a miss ratio such as 0.1, and not '{word}'"
        )?)),
    }
}

/// Parses how long the caches are warmed up.
pub fn warmup_of(alloc: Global, word: &str) -> Result<Warmup, Failure> {
    match (fraction(word), count(word)) {
        (Some(part), _) if part < 1.0 => Ok(Warmup::Fraction(part)),
        (None, Some(number)) => Ok(Warmup::Records(number)),
        _ => Err(Failure::Usage(format!(in alloc;
            "--warmup must be a number of requests or a part of them below 1, such as 0.2, and not '{word}'"
        )?)),
    }
}

/// Parses the sample to replay, and returns it with its description, and its number if it is one of several parts.
pub fn sample_of(
    alloc: Global,
    matches: &ArgMatches<'_>,
) -> Result<(Sample, String, Option<(u64, u64)>), Failure> {
    match (matches.get_str("sample"), matches.get_str("part")) {
        (None, None) => Ok((Sample::ALL, String::new(alloc), None)),
        (Some(_), Some(_)) => Err(Failure::Usage(format!(in alloc;
            "--sample and --part do not go together"
        )?)),
        (Some(word), None) => match fraction(word) {
            Some(rate) if rate > 0.0 && rate <= 1.0 => {
                let name = format!(in alloc; "a sample of {word} of the keys, sizes scaled")?;
                Ok((Sample::first(rate), name, None))
            }
            _ => Err(Failure::Usage(format!(in alloc;
                "--sample must be a part above 0 such as 0.01, and not '{word}'"
            )?)),
        },
        (None, Some(word)) => {
            let (part, parts) = word.split_once('/').unwrap_or((word, ""));
            match (decimal(part.as_bytes()), decimal(parts.as_bytes())) {
                (Some(part), Some(parts)) if part > 0 && part <= parts => {
                    let name = format!(in alloc;
                        "part {part} of {parts} of the keys, sizes scaled"
                    )?;
                    Ok((Sample::part(part, parts), name, Some((part, parts))))
                }
                _ => Err(Failure::Usage(format!(in alloc;
                    "--part must be such as 1/4, and not '{word}'"
                )?)),
            }
        }
    }
}
