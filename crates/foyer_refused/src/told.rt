//! Lines that a session tells.

use crate::sessions::{Simulated, empty};
use crate::word::Shown;
use foyer_core::Stats;
use foyer_policy::EvictionConfig;
use foyer_session::simulate;
use std::alloc::Global;

const LINES: &[u8] = b"insert 1 10
insert 2 20
insert 3 30
fetch 9
fetch 9
contains 2
phantom 5 50
done 9 0 90
insert 6 60
fetch 6
remove 6
resize 2
evict
clear
clear
drop 0
contains 1
";

const REPLIES: &[u8] = b"h0 | - | usage 1 entries 1
h1 | - | usage 2 entries 2
h2 | - | usage 3 entries 3
lead t0 f0 | - | usage 3 entries 3
wait t1 | - | usage 3 entries 3
yes | - | usage 3 entries 3
h3 | remove 5=50 | usage 3 entries 3
t0=h4 t1=h5 | - | usage 4 entries 4
h6 | evict 1=10 | usage 4 entries 4
h7 60 | - | usage 4 entries 4
h8 60 | remove 6=60 | usage 3 entries 3
ok | evict 2=20 | usage 2 entries 2
ok | evict 3=30, evict 9=90 | usage 0 entries 0
ok | - | usage 0 entries 0
ok | - | usage 0 entries 0
ok | - | usage 0 entries 0
no | - | usage 0 entries 0
";

// The last line, which takes no memory: it is the same once a line was refused.
const LAST: &[u8] = b"no | - | usage 0 entries 0
";

// How many lines there are.
const COUNT: usize = 17;

/// Shows a run over lines, where that is the name.
pub fn shown(alloc: Global, config: &EvictionConfig, name: &str) -> Option<Shown> {
    if name != "simulate" {
        return None;
    }
    let Ok(mut session) = empty(alloc, config) else {
        return Some(Shown::Early);
    };
    let Ok(mut written) = Vec::with_capacity(alloc, 4096) else {
        return Some(Shown::Early);
    };
    Some(run(&mut session, &mut written))
}

fn run(session: &mut Simulated, written: &mut Vec<u8>) -> Shown {
    let mut lines = LINES;
    if simulate(&mut lines, written, session, &mut Stats::default()).is_err() {
        return Shown::Wrong("the run");
    }
    if written.as_slice() == REPLIES {
        return Shown::Done;
    }
    let lines = written.iter().filter(|byte| **byte == b'\n').count();
    if lines != COUNT || !written.as_slice().ends_with(LAST) {
        return Shown::Wrong("the last line");
    }
    if !written
        .as_slice()
        .windows(2)
        .any(|two| two == b"F7".as_slice())
    {
        return Shown::Wrong("a line that is not refused");
    }
    Shown::Kept
}
