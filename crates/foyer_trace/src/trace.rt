//! A trace in memory, in parts whose columns are as narrow as their numbers allow.

ghost use Rattle.std.specs.Prelude.{◌≡◌, ℕ, ◌+◌, ◌-◌, ◌<◌, ◌^◌, IfOk, true, length, map, min, replicate, slice_index, slice_index_or};
ghost use Rattle.foyer_replay.specs.declared.request.Operation.TheVariants.{Get};
ghost use Rattle.foyer_trace.specs.Trace.{AreWithin, HasNumbers, expiry_at, life_at, number_at, operation_at, records_in, request_at, request_of, requests_of_part, weight_at};

use crate::record::Record;
use foyer_replay::{Operation, Request, Requests};
use std::alloc::{AllocError, Global};

/// How many records a part has, but the last.
pub const PART: usize = 1 << 16;

/// A column of numbers.
#[derive(Drop)]
enum Column {
    /// All are the same.
    Same(u64),
    /// Each is so much more than a base.
    Narrow(u64, Vec<u32>),
    /// Anything.
    Wide(Vec<u64>),
}

impl Column {
    // The column of these numbers.
    fn of(alloc: Global, numbers: Vec<u64>) -> Result<Column, AllocError>
        ensures { IfOk result (λ column. HasNumbers column numbers.items) }
    {
        let (least, most) = bounds_of(numbers.as_slice());
        if least >= most {
            return Ok(Column::Same(most));
        }
        if most - least > u32::MAX as u64 {
            return Ok(Column::Wide(numbers));
        }
        let more = above(alloc, numbers.as_slice(), least)?;
        Ok(Column::Narrow(least, more))
    }

    #[inline]
    fn at(&self, place: usize) -> u64
        ensures { result ≡ number_at self.now place }
    {
        match self {
            Column::Same(number) => *number,
            Column::Narrow(base, more) => {
                base.wrapping_add(small_in(more.as_slice(), place) as u64)
            }
            Column::Wide(numbers) => number_in(numbers.as_slice(), place),
        }
    }
}

// The least and the greatest of some numbers; the greatest number and 0 if there are none.
fn bounds_of(numbers: &[u64]) -> (u64, u64)
    ensures { AreWithin result.0 result.1 numbers.now }
{
    let (mut least, mut most) = (u64::MAX, 0);
    for place in 0..numbers.len() {
        least = least.min(numbers[place]);
        most = most.max(numbers[place]);
    }
    (least, most)
}

// By how much each of some numbers is above a base.
fn above(alloc: Global, numbers: &[u64], base: u64) -> Result<Vec<u32>, AllocError>
    requires { AreWithin base (base + 2 ^ 32 - 1) numbers.now }
    ensures { IfOk result (λ more. (place : ℕ) → place < length numbers.now →
        base + slice_index more.items place ≡ slice_index numbers.now place) }
{
    let mut more = Vec::with_capacity(alloc, numbers.len())?;
    for place in 0..numbers.len() {
        more.push((numbers[place] - base) as u32)?;
    }
    Ok(more)
}

// What stands in the column of lives for a record that lives for ever.
const EVER: u64 = u64::MAX;

/// Some records in a row.
#[derive(Drop)]
pub struct Part {
    keys: Vec<u64>,
    times: Column,
    sizes: Column,
    ttls: Column,
    operations: Vec<Operation>,
}

impl Part {
    /// The part of these records.
    pub fn new(alloc: Global, records: &[Record]) -> Result<Part, AllocError>
        ensures { IfOk result (λ part. (terms : Terms) → requests_of_part terms part ≡ map (request_of terms) records.now) }
    {
        let mut keys = Vec::with_capacity(alloc, records.len())?;
        let mut times = Vec::with_capacity(alloc, records.len())?;
        let mut sizes = Vec::with_capacity(alloc, records.len())?;
        let mut ttls = Vec::with_capacity(alloc, records.len())?;
        for place in 0..records.len() {
            let it = &records[place];
            keys.push(it.key)?;
            times.push(it.time)?;
            sizes.push(it.size)?;
            ttls.push(it.ttl.unwrap_or(EVER))?;
        }
        Ok(Part {
            keys,
            times: Column::of(alloc, times)?,
            sizes: Column::of(alloc, sizes)?,
            ttls: Column::of(alloc, ttls)?,
            operations: operations_of(alloc, records)?,
        })
    }

    /// How many records there are.
    pub fn len(&self) -> usize
        ensures { result ≡ length self.now.keys.items }
    {
        self.keys.len()
    }

    /// The keys.
    pub fn keys(&self) -> &[u64] {
        self.keys.as_slice()
    }

    /// The records from a place on to another.
    pub fn slice(&self, alloc: Global, start: usize, end: usize) -> Result<Part, AllocError> {
        let mut records = Vec::with_capacity(alloc, end.saturating_sub(start))?;
        for place in start..end {
            records.push(Record {
                key: number_in(self.keys.as_slice(), place),
                time: self.times.at(place),
                size: self.sizes.at(place),
                ttl: Some(self.ttls.at(place)).filter(|ttl| *ttl != EVER),
                operation: self.operation(place),
            })?;
        }
        Part::new(alloc, records.as_slice())
    }

    /// What the record at a place asks.
    #[inline]
    pub fn operation(&self, place: usize) -> Operation
        ensures { result ≡ operation_at self.now place }
    {
        match self.operations.get(place) {
            Some(operation) => *operation,
            None => Operation::Get,
        }
    }

    /// How many bytes the record at a place has.
    #[inline]
    pub fn size(&self, place: usize) -> u64
        ensures { result ≡ number_at self.now.sizes place }
    {
        self.sizes.at(place)
    }

    /// The request of the record at a place.
    #[inline]
    pub fn request(&self, place: usize, terms: Terms) -> Request
        ensures { result ≡ request_at self.now terms place }
    {
        let time = self.times.at(place);
        let ttl = self.life(place, terms.ttl);
        Request {
            key: number_in(self.keys.as_slice(), place),
            time,
            weight: self.weight(place, terms.weighs_sizes),
            expiry: expiry_of(time, ttl),
            size: self.sizes.at(place),
            operation: self.operation(place),
        }
    }

    // How long the record at a place lives, if not as is said of all.
    #[inline]
    fn life(&self, place: usize, all: Option<u64>) -> u64
        ensures { result ≡ life_at self.now all place }
    {
        match all {
            Some(ttl) => ttl,
            None => self.ttls.at(place),
        }
    }

    // What the record at a place weighs.
    #[inline]
    fn weight(&self, place: usize, weighs_sizes: bool) -> u64
        ensures { result ≡ weight_at self.now weighs_sizes place }
    {
        if weighs_sizes {
            self.sizes.at(place)
        } else {
            1
        }
    }
}

/// How records become requests.
#[derive(Clone, Copy)]
pub struct Terms {
    /// Whether a record weighs its size, and not 1.
    pub weighs_sizes: bool,
    /// How long each record lives, if not as its column says.
    pub ttl: Option<u64>,
}

// When a record of this time and life expires.
#[inline]
fn expiry_of(time: u64, ttl: u64) -> Option<u64>
    ensures { result ≡ expiry_at time ttl }
{
    if ttl == EVER {
        return None;
    }
    Some(time.saturating_add(ttl))
}

// The number at a place.
#[inline]
fn number_in(numbers: &[u64], place: usize) -> u64
    ensures { result ≡ slice_index numbers.now place }
{
    match numbers.get(place) {
        Some(number) => *number,
        None => 0,
    }
}

// The small number at a place.
#[inline]
fn small_in(numbers: &[u32], place: usize) -> u32
    ensures { result ≡ slice_index numbers.now place }
{
    match numbers.get(place) {
        Some(number) => *number,
        None => 0,
    }
}

// What the records ask, or nothing if all are gets.
fn operations_of(alloc: Global, records: &[Record]) -> Result<Vec<Operation>, AllocError>
    ensures { IfOk result (λ operations. (place : ℕ) →
        slice_index_or operations.items place Get ≡ slice_index_or (map (λ it. it.operation) records.now) place Get) }
{
    let mut operations = Vec::new(alloc);
    if are_gets(records) {
        return Ok(operations);
    }
    operations.reserve(records.len())?;
    for place in 0..records.len() {
        operations.push(records[place].operation)?;
    }
    Ok(operations)
}

// Whether all records are gets.
fn are_gets(records: &[Record]) -> bool
    ensures { result ≡ true → map (λ it. it.operation) records.now ≡ replicate (length records.now) Get }
{
    for place in 0..records.len() {
        let Operation::Get = records[place].operation else {
            return false;
        };
    }
    true
}

/// The requests that the records of a part become.
#[derive(Clone, Copy)]
pub struct PartRequests<'a> {
    pub part: &'a Part,
    pub terms: Terms,
}

impl Requests for PartRequests<'_> {
    ghost use Rattle.std.specs.Prelude.{length};
    ghost use Rattle.foyer_trace.specs.Trace.{request_at};

    ghost nth = { λ v place. request_at v.part.now v.terms place };

    ghost count = { λ v. length v.part.now.keys.items };

    #[inline]
    fn len(&self) -> usize {
        self.part.len()
    }

    #[inline]
    fn request(&self, place: usize) -> Request {
        self.part.request(place, self.terms)
    }
}

/// What is known of all records of a trace.
#[derive(Clone, Copy, Default)]
pub struct Totals {
    /// How many records were read, and replayed if they are in the sample.
    pub read: u64,
    /// How many bad ones were left out.
    pub bad: u64,
    /// How many of those that were read are gets.
    pub read_gets: u64,
    /// The bytes of those gets.
    pub read_bytes: u128,
    /// How many records are in the sample.
    pub records: u64,
    /// How many gets are in the sample.
    pub gets: u64,
    /// The bytes of the gets in the sample.
    pub bytes: u128,
    /// How many keys the footprint has.
    pub keys: u64,
    /// The bytes of those keys, each as large as it was first.
    pub key_bytes: u128,
    /// Whether records have sizes.
    pub has_sizes: bool,
    /// Whether some record lives for a time.
    pub has_lives: bool,
    /// The checksum of all records that were read.
    pub checksum: u64,
}

/// A trace in memory, or a window of one with what is known of the whole.
#[derive(Drop)]
pub struct Trace {
    pub parts: Vec<Part>,
    pub totals: Totals,
}

impl Trace {
    /// How many records there are, or 2^64 - 1 if there are more.
    pub fn len(&self) -> u64
        ensures { result ≡ min (records_in self.now.parts.items) (2 ^ 64 - 1) }
    {
        let mut count = 0u64;
        for part in &self.parts {
            count = count.saturating_add(part.len() as u64);
        }
        count
    }
}
