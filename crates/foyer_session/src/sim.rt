//! What `foyer-sim` makes of its arguments and its lines.

ghost use Rattle.std.specs.Prelude.{◌≡◌, ℕ, [], Some, IfSome, OnOk, OnErr};
ghost use Rattle.std.specs.Hash.{u64 as u64_input};
ghost use Rattle.foyer_session.specs.Sessions.{session_of, meaning_of_session};
ghost use Rattle.foyer_session.specs.Simulated.{LineTold};
ghost use Rattle.foyer_session.specs.Told.{TellsAll, TellsPart};

use crate::session::Session;
use crate::text::Lines;
use foyer_core::{AdmitAll, CacheProperties, Finder, Stats, TagFinder};
use foyer_policy::{AnyEviction, HashBuilder};
use std::io;
use std::io::{BufRead, ErrorKind, Write};

mod args;
mod reply;
mod tell;
mod value;

pub use args::{SimArgs, SimPolicy, sim_args};
pub use reply::{event_name, write_answer, write_found, write_numbered, write_refusal, write_rest};
pub use value::{SimValue, SimWeighter};

/// The session of `foyer-sim`, over a cache of any of the five policies.
pub type SimSession<S, I = TagFinder<u64>> = Session<
    AnyEviction,
    u64,
    SimValue,
    CacheProperties,
    S,
    SimWeighter,
    AdmitAll,
    I,
>;

/// Carries out each line of a reader as a command, until the end of the input, counts it, and writes its reply, the
/// removals, the usage and the entries.
///
/// If a command fails, its reply says so, and the next line is carried out. The line `at N` sets the time of the
/// lines after it, which is 0 at the start and may go back. The output is flushed before each read that may wait.
///
/// # Errors
/// That of the reader or the writer; after 2^64 lines, `ErrorKind::Other`. The output is then a beginning of the text
/// of some first lines.
pub fn simulate<R: BufRead, W: Write, S: HashBuilder, I: Finder<u64>>(
    reader: &mut R,
    writer: &mut W,
    session: &mut SimSession<S, I>,
    stats: &mut Stats,
) -> io::Result<()>
    ensures all { OnOk result ((last : ℕ) × TellsAll (LineTold (meaning_of_session session.old) (λ builder key. S.hash_of builder (u64_input key)))
        (record { now = 0; session = session_of session.old }) (record { now = last; session = session_of session.new }) (R.remaining reader.old) (W.contents writer.old) (W.contents writer.new)) }
    ensures at_end { OnOk result (IfSome (R.remaining reader.old) (λ _. R.remaining reader.new ≡ Some [])) }
    ensures part { OnErr result ((last : ℕ) × TellsPart (LineTold (meaning_of_session session.old) (λ builder key. S.hash_of builder (u64_input key)))
        (record { now = 0; session = session_of session.old }) (record { now = last; session = session_of session.new }) (R.remaining reader.old) (W.contents writer.old) (W.contents writer.new)) }
{
    let mut lines = Lines::new();
    let mut moment = 0;
    for _turn in 0..u64::MAX {
        let Some(line) = lines.read(reader, writer)? else {
            return Ok(());
        };
        tell::tell(writer, session, &mut moment, stats, line)?;
    }
    Err(io::Error::from(ErrorKind::Other))
}
