//! Records as C reads them.

ghost use Rattle.std.specs.Prelude.{◌≡◌};
ghost use Rattle.luffapricot_c.specs.Bytes.{ShowsParts};
ghost use Rattle.luffapricot_c.specs.Releases.{ShowsGone};
ghost use Rattle.luffapricot_c.specs.Walks.{ShowsListed};

use crate::hold::{Gone, Listed};
use crate::key::Key;
use crate::status;
use crate::terms::flags;
use crate::value::Value;
use foyer_core::CacheProperties;
use std::ptr;

/// A record that is shown where it lies. The addresses are good for as long as the number is held.
#[repr(C)]
#[derive(Drop)]
pub struct LuffaRecord {
    pub key: *const u8,
    pub key_len: usize,
    pub value: *const u8,
    pub value_len: usize,
    pub weight: usize,
    /// From this time on no lookup finds it, or 0 if it never expires.
    pub expires: u64,
    /// The flags by which it was inserted, as in `LuffaTerms`.
    pub flags: u32,
    pub event: u32,
    pub number: usize,
    pub owner: u64,
}

// The address of bytes, or null if there are none.
#[inline(always)]
fn address(bytes: &[u8]) -> *const u8 {
    match bytes.first() {
        Some(first) => ptr::from_ref(first),
        None => ptr::null(),
    }
}

impl LuffaRecord {
    /// Shows a key and a value, with what comes with them.
    #[inline(always)]
    pub(crate) fn show(
        &mut self,
        key: &Key,
        value: &Value,
        weight: usize,
        properties: &CacheProperties,
    )
        ensures { ShowsParts self.new key.now value.now weight properties.now }
    {
        let bytes = key.bytes.as_slice();
        self.key = address(bytes);
        self.key_len = bytes.len();
        let bytes = value.bytes.as_slice();
        self.value = address(bytes);
        self.value_len = bytes.len();
        self.weight = weight;
        self.owner = value.owner;
        self.expires = properties.expiry().unwrap_or(0);
        self.flags = flags(properties);
    }

    /// Shows a record that left.
    pub(crate) fn show_gone(&mut self, gone: &Gone)
        ensures { ShowsGone self.new gone.now }
    {
        let (event, left) = gone;
        self.show(left.key(), left.value(), left.weight(), left.properties());
        self.event = status::event(*event);
    }

    /// Shows a record that was listed.
    pub(crate) fn show_listed(&mut self, listed: &Listed)
        ensures { ShowsListed self.new listed.now }
    {
        let value = listed.value();
        self.show(listed.key(), value, value.weight, listed.properties());
    }
}
