//! Values that are copied into a buffer.

ghost use Rattle.std.specs.Prelude.{◌≡◌, length};
ghost use Rattle.luffapricot_c.specs.Bytes.{copied_into};
ghost use Rattle.luffapricot_c.specs.Calls.{GetsCopy, PeeksCopy};

use super::ByteCache;
use crate::value::Value;
use foyer_policy::Result;

impl ByteCache {
    /// Looks a record up and copies its value, or the part of it that fits. The length of the value, if there is one.
    #[inline(always)]
    pub(crate) fn get(
        &mut self,
        now: u64,
        hash: u64,
        key: &[u8],
        out: &mut [u8],
    ) -> Result<Option<usize>>
        ensures { GetsCopy now hash key.now out.old result out.new self.old self.new }
    {
        self.asked.set(hash, key)?;
        let Some(name) = self.core.touch_named(now, &self.asked)? else {
            return Ok(None);
        };
        let Some(record) = self.core.held(name) else {
            unreachable!();
        };
        Ok(Some(copy_value(record.value(), out)))
    }

    /// Copies the value of the record that a lookup would find, or the part of it that fits, and counts no use. The
    /// length of the value, if there is one.
    #[inline(always)]
    pub(crate) fn peek(
        &mut self,
        now: u64,
        hash: u64,
        key: &[u8],
        out: &mut [u8],
    ) -> Result<Option<usize>>
        ensures { PeeksCopy now hash key.now out.old result out.new self.old self.new }
    {
        self.asked.set(hash, key)?;
        match self.core.value(now, &self.asked) {
            Some(value) => Ok(Some(copy_value(value, out))),
            None => Ok(None),
        }
    }
}

// Copies a value, or the part of it that fits. Returns its length.
#[inline(always)]
fn copy_value(value: &Value, out: &mut [u8]) -> usize
    ensures len { result ≡ length (value.now.bytes).items }
    ensures copied { out.new ≡ copied_into (value.now.bytes).items out.old }
{
    let bytes = value.bytes.as_slice();
    copy_part(bytes, out);
    bytes.len()
}

// Copies bytes, or the first ones that fit.
#[inline(always)]
fn copy_part(bytes: &[u8], out: &mut [u8])
    ensures { out.new ≡ copied_into bytes.now out.old }
{
    if bytes.len() <= out.len() {
        out[..bytes.len()].copy_from_slice(bytes);
    } else {
        let room = out.len();
        out.copy_from_slice(&bytes[..room]);
    }
}
