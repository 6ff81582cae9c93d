//! `foyer-refused POLICY CALL` prepares what the call needs, makes the call until it is not refused, and prints one
//! word. `early`: memory was refused before the call. `kept`: the call was refused, what was left is as it should be,
//! and the same call then succeeded. `behind`: the call took all the memory that it asked for, and one more box was
//! refused. `done`: nothing was refused. `wrong`, with what differs. `tests/refused/run` runs it with one allocation
//! refused.
#![tactic(auto)]

mod audited;
mod call;
mod calls;
mod cores;
mod kept;
mod locked;
mod others;
mod parts;
mod policies;
mod sessions;
mod told;
mod word;

use foyer_policy::EvictionConfig;
use locked::Runtime;
use std::alloc::Global;
use std::env;
use std::io::{self, Write};
use word::Shown;

fn main(rt: HostRuntime) -> io::Result<()> {
    let shown = match words(&rt) {
        Some(words) => asked(rt, words.as_slice()),
        None => Shown::Early,
    };
    let [word, differs] = shown.words();
    let mut out = rt.stdout();
    for text in [word, differs, "\n"] {
        out.write_all(text.as_bytes())?;
    }
    Ok(())
}

// The arguments, where there is memory for them.
fn words(rt: &HostRuntime) -> Option<Vec<String>> {
    let mut words = Vec::new(rt.alloc());
    for word in env::args(rt).ok()?.skip(1) {
        words.push(word).ok()?;
    }
    Some(words)
}

fn asked<H: Runtime>(rt: H, words: &[String]) -> Shown {
    match words {
        [policy, call] => of_names(rt, policy.as_str(), call.as_str()),
        [word] if matches!(word.as_str(), "-h" | "--help") => Shown::Usage,
        _ => Shown::Wrong("the arguments"),
    }
}

fn of_names<H: Runtime>(rt: H, policy: &str, call: &str) -> Shown {
    let Ok(config) = policy.parse::<EvictionConfig>() else {
        return Shown::Wrong("the policy");
    };
    locked::shown(rt, &config, call)
        .or_else(|| audited::shown(&rt, &config, call))
        .or_else(|| of_call(rt.alloc(), &config, call))
        .unwrap_or(Shown::Wrong("the call"))
}

fn of_call(alloc: Global, config: &EvictionConfig, call: &str) -> Option<Shown> {
    calls::shown(alloc, config, call)
        .or_else(|| others::shown(alloc, config, call))
        .or_else(|| parts::shown(alloc, call))
        .or_else(|| policies::shown(alloc, config, call))
        .or_else(|| sessions::shown(alloc, config, call))
        .or_else(|| told::shown(alloc, config, call))
        .map(|shown| shown.or_behind(alloc))
}
