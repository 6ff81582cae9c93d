//! Lines that begin and end fetches.

use super::{Fetch, Runner, Waiting};
use crate::cache::SimTask;
use crate::failure::Failure;
use crate::fetch::{Led, Promise};
use crate::told::{Answered, Told};
use foyer_session::{Answer, SimValue};
use futures::Future;
use futures::future::FutureExt;
use std::sync::Wait;

impl<H: Wait + Drop> Runner<H> {
    // Looks a key up, and waits where it is not found.
    pub(super) fn fetch(&mut self, key: u64) -> Result<Told, Failure> {
        let promise = Promise::new(self.rt.alloc())?;
        let later = promise.share()?;
        let mut led = Led { task: None };
        let look = match self.cache.get_or_fetch(self.now, &key, || later, &mut led) {
            Ok(look) => look,
            Err(error) => return Ok(Told::refused(error)),
        };
        match look.try_unwrap() {
            Ok(entry) => self.found(entry.map(Some)),
            Err(look) => {
                let token = self.next_of(key).new_token();
                self.waiting.push(Waiting { key, token, look })?;
                match led.task {
                    Some(task) => self.lead(key, token, promise, task),
                    None => Ok(Told::Plain(Answer::Wait { token })),
                }
            }
        }
    }

    // Begins a fetch, whose task is polled until it waits for the promise.
    fn lead(
        &mut self,
        key: u64,
        token: u64,
        promise: Promise,
        mut task: SimTask<H>,
    ) -> Result<Told, Failure> {
        polled(&self.rt, &mut task)?;
        let number = self.next_of(key).new_fetch();
        self.fetches.push(Fetch {
            key,
            number,
            promise,
            task,
        })?;
        Ok(Told::Plain(Answer::Lead {
            fetch: number,
            token,
        }))
    }

    // Gives the task of a fetch its value and polls it, or drops it where there is no value. A task that was overtaken has
    // to change nothing by that.
    pub(super) fn end(
        &mut self,
        key: u64,
        number: u64,
        value: Option<u64>,
    ) -> Result<Told, Failure> {
        let place = self
            .fetches
            .iter()
            .position(|it| it.key == key && it.number == number);
        if let Some(place) = place {
            let mut fetch = self.fetches.remove(place);
            if let Some(value) = value {
                fetch.promise.give(SimValue { value, weight: 1 });
                polled(&self.rt, &mut fetch.task)?;
            }
        }
        Ok(Told::Ended(self.answers(key)?))
    }

    // Polls those who wait for a key, and answers what those got who wait no longer.
    pub(super) fn answers(&mut self, key: u64) -> Result<Vec<Answered>, Failure> {
        let mut answers = Vec::new(self.rt.alloc());
        let mut place = 0;
        while place < self.waiting.len() {
            let waiting = &mut self.waiting[place];
            if waiting.key != key {
                place += 1;
                continue;
            }
            let token = waiting.token;
            let Some(got) = polled(&self.rt, &mut waiting.look)? else {
                place += 1;
                continue;
            };
            drop(self.waiting.remove(place));
            let got = match got {
                Ok(entry) => Ok(self.hold(entry)?),
                Err(error) => Err(error),
            };
            answers.push(Answered { token, got })?;
        }
        Ok(answers)
    }
}

// Polls a future once. None where it is pending.
fn polled<F: Future>(rt: &HostRuntime, future: &mut F) -> Result<Option<F::Output>, Failure> {
    future.now_or_never(rt).map_err(|_| Failure::Memory)
}
