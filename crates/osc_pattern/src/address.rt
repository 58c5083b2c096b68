//! Addresses of methods.
ghost use Rattle.osc_pattern.specs.declared.limits.TheConstants.{MAX_NAME, MAX_NAMES};
ghost use Rattle.std.specs.Prelude.{◌≡◌, ◌↔◌, IsTrue, IsOk, IfOk, IfSome, IsOkUnless, Some, nat_lt};
ghost use Rattle.std.specs.Prelude.{length};
ghost use Rattle.std.specs.List.{list_any, slice_split};
ghost use Rattle.std.specs.Str.{bytes_eq};
ghost use Rattle.std.specs.Ordering.{nat_cmp};
ghost use Rattle.std.specs.Cmp.{partial_equiv_from_equiv};
ghost use Rattle.std.specs.Cmp.Lexicographic.{slice_cmp, nat_list_eq_equiv, nat_list_cmp_total};
ghost use Rattle.std.specs.Cmp.Lexicographic.{texts_po, texts_ties};
ghost use Rattle.std.proofs.Common.{refl};
ghost use Rattle.osc_pattern.specs.Items.{is_slash};
ghost use Rattle.osc_pattern.specs.Patterns.{begins_with_slash, parts_of};
ghost use Rattle.osc_pattern.specs.Addresses.{IsAddress, is_address, address_fault, is_bad_byte};

use crate::cut::count;
use crate::faults::AddressFault;
use crate::limits::{MAX_ADDRESS, MAX_NAME, MAX_NAMES};
use std::alloc::{AllocError, Global};
use std::cmp::Ordering;
use std::marker::Model;

/// The address of a method: a slash before each name, 1 to 16 names of 1 to 63 bytes, at most 255
/// bytes.
///
/// The bytes of a name are from 0x21 to 0x7E, without `#*,?[]{}` (OSC 1.0, "OSC Address Spaces and
/// OSC Addresses"). Addresses are ordered by their bytes.
#[derive(Debug)]
pub struct Address {
    bytes: Vec<u8>,
}

impl Drop for Address {
    fn drop(self) {
        let Address { bytes: _ } = self;
    }
}

impl Model for Address {
    ghost use Rattle.std.specs.Prelude.{List, ℕ, IsTrue};
    ghost use Rattle.osc_pattern.specs.Addresses.{is_address};

    ghost Value = { List ℕ };

    ghost view = { λ a. a.bytes.items };

    ghost invariant = { λ a. IsTrue (is_address a.bytes.items) };
}

impl Address {
    /// The address that the bytes are, in memory of its own.
    pub fn read(alloc: Global, bytes: &[u8]) -> Result<Address, AddressFault>
        ensures ok { IfOk result (λ address. address ≡ bytes.now) }
        ensures sound { IsOk result → IsAddress bytes.now }
        ensures complete { IsAddress bytes.now → IsOkUnless result AddressFault.NoMemory }
        ensures test { IsTrue (is_address bytes.now) → IsOkUnless result AddressFault.NoMemory }

        // The first rule that is broken, each over the whole text before the next.
        ensures refuses { IfSome (address_fault bytes.now) (λ fault. result ≡ Err fault) }
        ensures no_memory { result ≡ Err AddressFault.NoMemory → IsTrue (is_address bytes.now) }
    {
        if let Some(fault) = first_fault(bytes) {
            return Err(fault);
        }
        match Address::known(alloc, bytes) {
            Ok(address) => Ok(address),
            Err(_) => Err(AddressFault::NoMemory),
        }
    }

    /// The address that the bytes were checked to be, in memory of its own. An `Err` means out of
    /// memory.
    pub fn known(alloc: Global, bytes: &[u8]) -> Result<Address, AllocError>
        requires { IsTrue (is_address bytes.now) }
        ensures { IfOk result (λ address. address ≡ bytes.now) }
    {
        Ok(Address {
            bytes: Vec::from_slice(alloc, bytes)?,
        })
    }

    /// Whether the bytes are an address. Takes no memory.
    pub fn is_lawful(bytes: &[u8]) -> bool
        ensures test { result ≡ is_address bytes.now }
        ensures exact { IsTrue result ↔ IsAddress bytes.now }
    {
        first_fault(bytes).is_none()
    }

    /// The address's bytes.
    pub fn bytes(&self) -> &[u8]
        ensures value { result.now ≡ self.now }
        ensures lawful { IsAddress result.now }
        ensures test { IsTrue (is_address result.now) }
    {
        self.bytes.as_slice()
    }

    /// A copy in memory of its own.
    pub fn copied(&self, alloc: Global) -> Result<Address, AllocError>
        ensures { IfOk result (λ copy. copy ≡ self.now) }
    {
        Address::known(alloc, self.bytes())
    }
}

impl PartialEq for Address {
    ghost eq = { bytes_eq };

    ghost laws = { partial_equiv_from_equiv nat_list_eq_equiv };

    fn eq(&self, other: &Address) -> bool {
        self.bytes() == other.bytes()
    }
}

impl Eq for Address {
    ghost laws = { nat_list_eq_equiv };
}

impl PartialOrd for Address {
    ghost partial_cmp = { λ x y. Some (slice_cmp nat_cmp x y) };

    ghost laws = { texts_po };

    fn partial_cmp(&self, other: &Address) -> Option<Ordering> {
        Some(self.cmp(other))
    }
}

impl Ord for Address {
    ghost cmp = { slice_cmp nat_cmp };

    ghost total = { nat_list_cmp_total };

    ghost matches_partial_cmp = { λ x y. refl };

    ghost matches_eq = { texts_ties };

    fn cmp(&self, other: &Address) -> Ordering {
        self.bytes().cmp(other.bytes())
    }
}

/// The first rule of an address that the bytes break.
fn first_fault(bytes: &[u8]) -> Option<AddressFault>
    ensures { result ≡ address_fault bytes.now }
{
    let [b'/', names @ ..] = bytes else {
        return Some(AddressFault::NoSlash);
    };
    if has_empty_name(names) {
        return Some(AddressFault::EmptyName);
    }
    if has_bad_byte(names) {
        return Some(AddressFault::BadByte);
    }
    if has_long_name(names) {
        return Some(AddressFault::NameLong);
    }
    if bytes.len() > MAX_ADDRESS {
        return Some(AddressFault::AddressLong);
    }
    if has_many_names(names) {
        return Some(AddressFault::TooManyParts);
    }
    None
}

fn has_empty_name(names: &[u8]) -> bool
    ensures { result ≡ list_any (λ name. nat_lt (length name) 1) (slice_split is_slash names.now) }
{
    names.split(|byte| *byte == b'/').any(|name| name.len() < 1)
}

fn has_bad_byte(names: &[u8]) -> bool
    ensures { result ≡ list_any (list_any is_bad_byte) (slice_split is_slash names.now) }
{
    names
        .split(|byte| *byte == b'/')
        .any(|name| is_bad_name(name))
}

fn has_long_name(names: &[u8]) -> bool
    ensures { result ≡ list_any (λ name. nat_lt MAX_NAME (length name))
        (slice_split is_slash names.now) }
{
    names
        .split(|byte| *byte == b'/')
        .any(|name| name.len() > MAX_NAME)
}

fn has_many_names(names: &[u8]) -> bool
    ensures { result ≡ nat_lt MAX_NAMES (length (slice_split is_slash names.now)) }
{
    count(names, b'/') >= MAX_NAMES
}

fn is_bad_name(name: &[u8]) -> bool
    ensures { result ≡ list_any is_bad_byte name.now }
{
    name.iter().any(|byte| is_bad_byte(*byte))
}

fn is_bad_byte(byte: u8) -> bool
    ensures { result ≡ is_bad_byte byte }
{
    !byte.is_ascii_graphic() || b"#*,?[]{}".contains(&byte)
}
