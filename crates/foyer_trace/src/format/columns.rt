//! Which column of a CSV trace is what.

use crate::failure::Failure;
use crate::nearest::unknown;
use crate::number::decimal;
use csv::ByteRecord;
use std::alloc::{AllocError, Global};

/// What a column holds.
#[derive(Clone, Copy, PartialEq, Eq)]
pub enum Role {
    /// When the request was made.
    Time,
    /// The key.
    Key,
    /// How many bytes the value has.
    Size,
    /// What was asked.
    Op,
    /// How long the value lives.
    Ttl,
}

const ROLES: [Role; 5] = [Role::Time, Role::Key, Role::Size, Role::Op, Role::Ttl];

const NAMES: [&str; 5] = ["time", "key", "size", "op", "ttl"];

impl Role {
    /// The role's name.
    pub fn name(self) -> &'static str {
        match self {
            Role::Time => "time",
            Role::Key => "key",
            Role::Size => "size",
            Role::Op => "op",
            Role::Ttl => "ttl",
        }
    }

    fn of_name(alloc: Global, name: &str) -> Result<Role, Failure> {
        for role in ROLES {
            if role.name() == name {
                return Ok(role);
            }
        }
        Err(unknown(alloc, "column", name, NAMES.as_slice()))
    }

    // The place of a header's name among those of this role; the first says it best.
    fn rank(self, name: &[u8]) -> Option<usize> {
        let names: &[&str] = match self {
            Role::Time => &["time", "timestamp", "ts", "clock_time"],
            Role::Key => &[
                "key",
                "id",
                "obj_id",
                "object",
                "object_id",
                "obj",
                "page",
                "path",
                "url",
            ],
            Role::Size => &["size", "obj_size", "object_size", "bytes", "length"],
            Role::Op => &["op", "operation", "method"],
            Role::Ttl => &["ttl"],
        };
        names
            .iter()
            .position(|it| it.as_bytes().eq_ignore_ascii_case(name.trim_ascii()))
    }
}

/// Where a column stands.
#[derive(Clone, Copy)]
pub enum Place<'a> {
    /// At this number, from 0.
    Number(usize),
    /// Where the header has this name.
    Name(&'a str),
}

/// What was said of the columns: a role each, with its place.
pub type Wanted<'a> = Vec<(Role, Place<'a>)>;

/// The columns that a list says: `time,key,-,size` gives each column its role in order, and `key=2,size=bytes` names
/// columns by number, from 1, or by the header's name.
pub fn wanted_columns(alloc: Global, list: &str) -> Result<Wanted<'_>, Failure> {
    let mut wanted = Vec::new(alloc);
    for (at, word) in list.split(',').enumerate() {
        let (name, place) = word.split_once('=').unwrap_or((word, ""));
        if (name == "-" || name.is_empty()) && place.is_empty() {
            continue;
        }
        let role = Role::of_name(alloc, name)?;
        let place = match decimal(place.as_bytes()) {
            _ if place.is_empty() => Place::Number(at),
            Some(0) => {
                return Err(Failure::Usage(format!(in alloc;
                    "columns are numbered from 1, in '{word}'"
                )?));
            }
            Some(number) => Place::Number((number as usize).saturating_sub(1)),
            None => Place::Name(place),
        };
        if has_role(wanted.as_slice(), role) {
            return Err(Failure::Usage(format!(in alloc;
                "two columns are the {name}, in '{list}'"
            )?));
        }
        wanted.push((role, place))?;
    }
    if !has_role(wanted.as_slice(), Role::Key) {
        return Err(Failure::Usage(format!(in alloc; "no column is the key, in '{list}'")?));
    }
    Ok(wanted)
}

fn has_role(wanted: &[(Role, Place<'_>)], role: Role) -> bool {
    wanted.iter().any(|it| it.0 == role)
}

/// The places of a trace's columns.
#[derive(Clone, Copy, Default)]
pub struct Columns {
    pub key: usize,
    pub time: Option<usize>,
    pub size: Option<usize>,
    pub op: Option<usize>,
    pub ttl: Option<usize>,
}

impl Columns {
    fn put(&mut self, role: Role, place: usize) {
        match role {
            Role::Key => self.key = place,
            Role::Time => self.time = Some(place),
            Role::Size => self.size = Some(place),
            Role::Op => self.op = Some(place),
            Role::Ttl => self.ttl = Some(place),
        }
    }

    // Whether a row is a header: a column of numbers has a word there, or that of keys or operations has one of its
    // names.
    fn are_headed_by(&self, row: &ByteRecord) -> bool {
        let is_word = |place: Option<usize>| {
            place
                .and_then(|at| row.get(at))
                .is_some_and(|field| is_no_number(field))
        };
        let is_named = |role: Role, place: Option<usize>| {
            place
                .and_then(|at| row.get(at))
                .is_some_and(|field| role.rank(field).is_some())
        };
        is_named(Role::Key, Some(self.key))
            || is_named(Role::Op, self.op)
            || is_word(self.time)
            || is_word(self.size)
            || is_word(self.ttl)
    }
}

// Whether a field does not begin as a number.
fn is_no_number(field: &[u8]) -> bool {
    field.trim_ascii().first().is_some_and(|first| !first.is_ascii_digit()
        && !matches!(first, b'-' | b'+' | b'.'))
}

/// The columns by what was said of them and by the first row, and whether that is a header.
pub fn columns_of(
    alloc: Global,
    wanted: Option<&Wanted<'_>>,
    first: &ByteRecord,
) -> Result<(Columns, bool), Failure> {
    let mut columns = Columns::default();
    let Some(wanted) = wanted else {
        check_commas(alloc, first)?;
        if let Some(columns) = columns_by_header(first) {
            return Ok((columns, true));
        }
        check_count(alloc, first.len())?;
        return Ok((columns_by_count(first.len()), false));
    };
    let mut has_names = false;
    for (role, place) in wanted {
        match place {
            Place::Number(at) => columns.put(*role, *at),
            Place::Name(name) => {
                has_names = true;
                columns.put(*role, place_of(alloc, first, name)?);
            }
        }
    }
    Ok((columns, has_names || columns.are_headed_by(first)))
}

// Whether a row seems to have commas between its columns, and not something else.
fn check_commas(alloc: Global, row: &ByteRecord) -> Result<(), Failure> {
    let field = row.get(0).unwrap_or(&[]);
    if row.len() > 1 || !field.iter().any(|byte| matches!(byte, b';' | b'\t')) {
        return Ok(());
    }
    Err(Failure::Usage(format!(in alloc;
        "the first row has no comma: put commas between columns, or say --columns key"
    )?))
}

// Whether so many columns may be a time, a key, a size, an operation and a life, where no header names them.
fn check_count(alloc: Global, count: usize) -> Result<(), Failure> {
    if count <= ROLES.len() {
        return Ok(());
    }
    Err(Failure::Usage(format!(in alloc;
        "the first row has {count} columns and no header: say --columns, such as time,-,key, or --format msr or twitter"
    )?))
}

// The columns that a header names, if the row is one. Where several have names of one role, the best name is taken.
fn columns_by_header(row: &ByteRecord) -> Option<Columns> {
    let mut columns = Columns::default();
    let mut has_key = false;
    for role in ROLES {
        let mut best = usize::MAX;
        for (at, field) in row.iter().enumerate() {
            let rank = role.rank(field).unwrap_or(usize::MAX);
            if rank < best {
                best = rank;
                has_key = has_key || role == Role::Key;
                columns.put(role, at);
            }
        }
    }
    if has_key { Some(columns) } else { None }
}

// The columns of a trace with no header, of which nothing was said: the key alone, or time, key, size, op and ttl.
fn columns_by_count(count: usize) -> Columns {
    let mut columns = Columns::default();
    if count > 1 {
        for (at, role) in ROLES.into_iter().enumerate() {
            if at < count {
                columns.put(role, at);
            }
        }
    }
    columns
}

// The place of a name in a header.
fn place_of(alloc: Global, header: &ByteRecord, name: &str) -> Result<usize, Failure> {
    for (at, field) in header.iter().enumerate() {
        if field.trim_ascii() == name.as_bytes().trim_ascii() {
            return Ok(at);
        }
    }
    Err(Failure::Usage(no_column(alloc, header, name)?))
}

fn no_column(alloc: Global, header: &ByteRecord, name: &str) -> Result<String, AllocError> {
    let mut text = format!(in alloc; "the header has no column '{name}' (it has ")?;
    for (at, field) in header.iter().enumerate() {
        if at > 0 {
            text.push_str(", ")?;
        }
        text.push_str(String::from_utf8_lossy(alloc, field)?.as_str())?;
    }
    text.push(')')?;
    Ok(text)
}
