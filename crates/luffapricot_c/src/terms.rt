//! How a record is inserted, and how it was.

ghost use Rattle.std.specs.Prelude.{◌≡◌};
ghost use Rattle.luffapricot_c.specs.Bytes.{asks_fit, expiry_flag, expiry_of, flags_of, hint_flag, phantom_flag, plain, properties_of};

use foyer_core::CacheProperties;
use foyer_policy::{Hint, Properties};

/// How a record is inserted.
#[repr(C)]
#[derive(Clone, Copy)]
pub struct LuffaTerms {
    /// What the record counts against the capacity.
    pub weight: usize,
    /// From this time on no lookup finds it, if `flags` say so.
    pub expires: u64,
    /// 1 for a record that expires, 2 for one of low priority, 4 for a phantom, 8 for one that isn't inserted unless it
    /// fits, and their sums.
    pub flags: u32,
}

const EXPIRES: u32 = 1;

const LOW: u32 = 2;

const PHANTOM: u32 = 4;

const ONLY_IF_FITS: u32 = 8;

impl LuffaTerms {
    pub(crate) fn properties(&self) -> CacheProperties
        ensures { result ≡ properties_of self.now }
    {
        let expiry = if self.flags & EXPIRES != 0 {
            Some(self.expires)
        } else {
            None
        };
        let hint = if self.flags & LOW != 0 {
            Hint::Low
        } else {
            Hint::Normal
        };
        let properties = CacheProperties::default()
            .with_expiry(expiry)
            .with_hint(hint);
        if self.flags & PHANTOM != 0 {
            properties.with_phantom(true)
        } else {
            properties
        }
    }

    /// Whether the record isn't to be inserted unless it fits.
    pub(crate) fn only_if_fits(&self) -> bool
        ensures { result ≡ asks_fit self.now }
    {
        self.flags & ONLY_IF_FITS != 0
    }
}

/// The properties of a record that expires then, or never if that is 0.
#[inline(always)]
pub(crate) fn plain_properties(expires: u64) -> CacheProperties
    ensures { result ≡ plain (expiry_of expires) }
{
    let expiry = if expires == 0 { None } else { Some(expires) };
    CacheProperties::default().with_expiry(expiry)
}

/// The flags by which a record with these properties would be inserted.
#[inline(always)]
pub(crate) fn flags(properties: &CacheProperties) -> u32
    ensures { result ≡ flags_of properties.now }
{
    expiry_flag(properties.expiry())
        | hint_flag(properties.hint())
        | phantom_flag(properties.phantom())
}

#[inline(always)]
fn expiry_flag(expiry: Option<u64>) -> u32
    ensures { result ≡ expiry_flag expiry }
{
    match expiry {
        Some(_) => EXPIRES,
        None => 0,
    }
}

#[inline(always)]
fn hint_flag(hint: Hint) -> u32
    ensures { result ≡ hint_flag hint }
{
    match hint {
        Hint::Low => LOW,
        Hint::Normal => 0,
    }
}

#[inline(always)]
fn phantom_flag(phantom: Option<bool>) -> u32
    ensures { result ≡ phantom_flag phantom }
{
    match phantom {
        Some(true) => PHANTOM,
        _ => 0,
    }
}
