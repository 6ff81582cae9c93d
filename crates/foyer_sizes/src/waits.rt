//! Threads that sleep until a fetch ends: none is polled meanwhile.

use crate::cache::{Cache, Fetch, Led, cache};
use crate::case::{Cases, Failure, Outcome, Runtime, same};
use crate::heard::Heard;
use foyer_memory::EvictionConfig;
use futures::Future;
use futures::channel::oneshot;
use futures::executor::block_on;
use futures::task::{Context, Poll};
use std::alloc::Global;
use std::sync::Arc;
use std::sync::atomic::{AtomicU64, Ordering};
use std::thread;
use std::time::Duration;

pub fn run<H: Runtime>(cases: &mut Cases<H>) -> Outcome {
    let rt = cases.rt;
    cases.of_each_policy("a fetch wakes who sleeps", |config| wakes(rt, config, true))?;
    cases.of_each_policy(
        "an insert wakes who sleeps",
        |config| wakes(rt, config, false),
    )
}

// How often a future was polled.
type Polls = Arc<AtomicU64, Global>;

// A future whose polls are counted.
#[derive(Drop)]
struct Counted<F: Future> {
    future: F,
    polls: Polls,
}

impl<F: Future> Counted<F> {
    fn new(future: F, polls: &Polls) -> Outcome<Self> {
        let polls = Arc::try_clone(polls)?;
        Ok(Counted { future, polls })
    }
}

impl<F: Future> Future for Counted<F> {
    type Output = F::Output;

    fn poll(&mut self, cx: &mut Context<'_>) -> Poll<F::Output> {
        self.polls.fetch_add(1, Ordering::SeqCst);
        self.future.poll(cx)
    }
}

fn seen(polls: &[&Polls; 2]) -> [u64; 2] {
    [
        polls[0].load(Ordering::SeqCst),
        polls[1].load(Ordering::SeqCst),
    ]
}

// Waits until both were polled, a minute at most, and then so long that they are asleep. How often they were polled by
// then, and how often a while later.
fn asleep<H: Runtime>(rt: &H, polls: &[&Polls; 2]) -> [[u64; 2]; 2] {
    for _ in 0..60_000u64 {
        if seen(polls)[0] > 0 && seen(polls)[1] > 0 {
            break;
        }
        thread::sleep(rt, Duration::from_millis(1));
    }
    thread::sleep(rt, Duration::from_millis(20));
    let then = seen(polls);
    thread::sleep(rt, Duration::from_millis(20));
    [then, seen(polls)]
}

// One thread sleeps in a look-up and another in its fetch. A third one ends the fetch, or inserts the key; then the fetch
// is ended too, so that its thread wakes up. Until then none is polled, and then each once.
fn wakes<H: Runtime>(rt: H, config: EvictionConfig, is_fetched: bool) -> Outcome {
    let heard = Heard::new(rt.alloc(), 10)?;
    let cache = cache(rt, 10, 1, config, &heard)?;
    let (sender, receiver) = oneshot::channel(rt.alloc())?;
    let mut led = Led { task: None };
    let look = cache.get_or_fetch(0, &7, || Fetch::Later(receiver), &mut led)?;
    let task = led.task.ok_or(Failure::Differs)?;
    let waited = Arc::new(rt.alloc(), AtomicU64::new(0))?;
    let worked = Arc::new(rt.alloc(), AtomicU64::new(0))?;
    let look = Counted::new(look, &waited)?;
    let task = Counted::new(task, &worked)?;
    let (found, (_, polls)) = thread::join(
        &rt,
        || block_on(&rt, look),
        || {
            thread::join(
                &rt,
                || block_on(&rt, task),
                || {
                    let polls = asleep(&rt, &[&waited, &worked]);
                    if !is_fetched {
                        drop(cache.insert(0, 7, 2));
                    }
                    drop(sender.send(1));
                    polls
                },
            )
        },
    );
    let [then, later] = polls;
    same(rt, "polls while both sleep", &later, &then)?;
    // Rust polls without a waker, then with one, and once more if an older wake-up was left.
    let are_few = then[0].max(then[1]) <= 3;
    same(rt, "polls before they sleep are few", &are_few, &true)?;
    let value = if is_fetched { 1 } else { 2 };
    same(rt, "value", &*found??, &value)?;
    let [looked, fetched] = seen(&[&waited, &worked]);
    let is_once = looked <= then[0] + 1 && fetched <= then[1] + 1;
    same(rt, "each is polled once at the end", &is_once, &true)
}
