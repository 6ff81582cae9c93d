//! The least size that reaches a miss ratio.

use crate::number::grouped;
use crate::report::{Report, Row};
use std::alloc::{AllocError, Global};

/// A policy at a size.
#[derive(Clone, Copy)]
pub struct Choice {
    /// The index of the policy.
    pub policy: usize,
    pub size: u64,
    pub ratio: f64,
    /// Whether it is a point of LRU's curve.
    pub is_curve: bool,
}

impl Choice {
    // Whether this choice is better than another: smaller with at most the target's miss ratio, or with a lower ratio
    // if there is no target.
    fn is_better(self, other: Choice, target: Option<f64>) -> bool {
        let Some(target) = target else {
            return self.ratio < other.ratio;
        };
        if self.ratio > target || other.ratio > target {
            return self.ratio <= target;
        }
        self.size < other.size || self.size == other.size && self.ratio < other.ratio
    }
}

impl Report {
    /// Returns the least size at which a policy of the library has at most the target's miss ratio, and the best policy
    /// there.
    pub fn choice(&self, target: f64) -> Option<Choice> {
        self.best(Some(target))
            .filter(|choice| choice.ratio <= target)
    }

    // Returns the best of all choices.
    fn best(&self, target: Option<f64>) -> Option<Choice> {
        let mut best: Option<Choice> = None;
        for policy in 0..self.policies.len() {
            let is_curve = self.is_curve(policy);
            for row in self.drawn(policy) {
                let it = Choice {
                    policy,
                    size: row.size,
                    ratio: row.miss_ratio(),
                    is_curve,
                };
                let is_offered = self.shows(row) && is_offered(row);
                if is_offered && best.is_none_or(|best| it.is_better(best, target)) {
                    best = Some(it);
                }
            }
        }
        best
    }

    /// Returns the miss ratio of a choice's policy at twice its size, or just below on a curve, if a run had that size.
    pub fn ratio_at_twice(&self, choice: Choice) -> Option<f64> {
        let twice = choice.size.saturating_mul(2);
        let mut found = None;
        for row in self.drawn(choice.policy) {
            if row.size == twice || choice.is_curve && row.size <= twice {
                found = Some(row.miss_ratio());
            }
        }
        found
    }

    /// Adds a recommendation above the notes, from the rows alone.
    pub fn recommend(&mut self, alloc: Global, target: Option<f64>) -> Result<(), AllocError> {
        let Some(target) = target else {
            return Ok(());
        };
        let choice = self.choice(target);
        let at_twice = choice.and_then(|it| self.ratio_at_twice(it));
        let line = self.recommendation(alloc, target, choice, at_twice)?;
        self.notes.insert(0, line)?;
        Ok(())
    }

    /// Describes the recommendation for a miss ratio, and the ratio at twice the size.
    pub fn recommendation(
        &self,
        alloc: Global,
        target: f64,
        choice: Option<Choice>,
        at_twice: Option<f64>,
    ) -> Result<String, AllocError> {
        let Some(it) = choice else {
            let mut text = format!(in alloc;
                "recommend: no size here has a miss ratio of {target} or less"
            )?;
            if let Some(least) = self.best(None) {
                let name = self.name_of(alloc, least, least.size)?;
                write!(text, "; the least is {:.4}, of {name}", least.ratio)?;
            }
            return Ok(text);
        };
        let name = self.name_of(alloc, it, it.size)?;
        let mut text = format!(in alloc; "recommend: {name}, miss ratio {:.4}", it.ratio)?;
        if let Some(ratio) = at_twice {
            let twice = self.amount(alloc, it.size.saturating_mul(2))?;
            write!(text, "; with {twice} {ratio:.4}")?;
        }
        Ok(text)
    }

    // Describes a choice.
    fn name_of(&self, alloc: Global, choice: Choice, size: u64) -> Result<String, AllocError> {
        let label = match self.policies.get(choice.policy) {
            Some(label) if !choice.is_curve => label.as_str(),
            _ => "lru (high=1.0)",
        };
        format!(in alloc; "{label} with {}", self.amount(alloc, size)?)
    }

    fn amount(&self, alloc: Global, size: u64) -> Result<String, AllocError> {
        if self.is_in_bytes {
            self.size_text(alloc, size)
        } else {
            format!(in alloc; "{} records", grouped(alloc, size as u128)?)
        }
    }

    /// Whether the policy at an index is LRU's curve.
    pub fn is_curve(&self, policy: usize) -> bool {
        self.policies
            .get(policy)
            .is_some_and(|it| it.as_str() == "lru-curve")
    }
}

// Whether the library has the policy of a row.
fn is_offered(row: &Row) -> bool {
    matches!(
        row.policy.as_str(),
        "fifo" | "lru" | "lfu" | "s3fifo" | "sieve" | "lru-curve"
    )
}
