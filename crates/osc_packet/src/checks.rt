// The checks of a packet, in their order.
ghost use Rattle.osc_atoms.specs.declared.limits.TheConstants.{MAX_PACKET};
ghost use Rattle.osc_packet.specs.declared.limits.TheConstants.{BUNDLE_HEAD};
ghost use Rattle.std.specs.Prelude.{◌≡◌, ◌+◌, ◌%◌, ◌<◌, ◌≤◌, length, take, drop, IfOk, Some};
ghost use Rattle.std.specs.Result.{result_err};
ghost use Rattle.osc_packet.specs.Packets;
ghost use Rattle.osc_packet.specs.Reading;
ghost use Rattle.osc_packet.specs.Reading.{head_read, message_fault_at, element_fault, body_fault};
ghost use Rattle.osc_packet.specs.Reading.{packet_fault, size_read};

use crate::limits::{BUNDLE_HEAD, MAX_DEPTH};
use osc_atoms::Fault;
use osc_message::Message;

/// The string that a bundle begins with (OSC 1.0, "OSC Bundles").
const BUNDLE_WORD: [u8; 8] = *b"#bundle\0";

/// The time tag that stands for "immediately" (OSC 1.0, "Temporal Semantics and OSC Time Tags").
pub(crate) const IMMEDIATELY: u64 = 1;

/// Checks a packet of at most `max` bytes.
pub(crate) fn check_packet(bytes: &[u8], max: u32) -> Result<(), Fault>
    requires { max ≤ MAX_PACKET }
    ensures { result_err result ≡ packet_fault max bytes.now }
{
    if bytes.is_empty() {
        return Err(Fault {
            kind: Fault::EMPTY,
            at: 0,
        });
    }
    if bytes.len() > max as usize {
        return Err(Fault {
            kind: Fault::TOO_LONG,
            at: max,
        });
    }
    if bytes.len() % 4 != 0 {
        return Err(Fault {
            kind: Fault::NOT_FOUR,
            at: bytes.len() as u32,
        });
    }
    if bytes[0] == b'/' {
        return check_message(bytes, 0);
    }
    check_element(bytes, 0, MAX_DEPTH as u32, None)
}

/// Checks the element at `at`. So many bundles may still be opened, and `outer` is the effective tag of the enclosing
/// one.
#[cycle(elements)]
pub(crate) fn check_element(
    bytes: &[u8],
    at: u32,
    left: u32,
    outer: Option<u64>,
) -> Result<(), Fault>
    requires some_byte { 0 < length bytes.now }
    requires fourfold { length bytes.now % 4 ≡ 0 }
    requires inside { at + length bytes.now ≤ MAX_PACKET }
    ensures { result_err result ≡ element_fault left outer at bytes.now }
{
    match bytes[0] {
        b'/' => check_message(bytes, at),
        b'#' => {
            let tag = check_head(bytes, at, left, outer)?;
            check_elements(
                bundle_elements(bytes),
                at + BUNDLE_HEAD as u32,
                left - 1,
                tag,
            )
        }
        _ => Err(Fault {
            kind: Fault::START,
            at,
        }),
    }
}

#[inline(always)]
fn check_message(bytes: &[u8], at: u32) -> Result<(), Fault>
    requires inside { at + length bytes.now ≤ MAX_PACKET }
    ensures { result_err result ≡ message_fault_at at bytes.now }
{
    match Message::first_fault(bytes, bytes.len() as u32) {
        None => Ok(()),
        Some(fault) => Err(Fault {
            kind: fault.kind,
            at: at + fault.at,
        }),
    }
}

/// The effective tag of the bundle at `at`.
fn check_head(bytes: &[u8], at: u32, left: u32, outer: Option<u64>) -> Result<u64, Fault>
    requires inside { at + length bytes.now ≤ MAX_PACKET }
    ensures read { result ≡ head_read left outer at bytes.now }
    ensures room { IfOk result (λ _. (BUNDLE_HEAD ≤ length bytes.now) × (0 < left)) }
{
    if !bytes.starts_with(&BUNDLE_WORD) {
        return Err(Fault {
            kind: Fault::BUNDLE_WORD,
            at,
        });
    }
    if bytes.len() < BUNDLE_HEAD {
        return Err(Fault {
            kind: Fault::BUNDLE_HEAD,
            at: at + 8,
        });
    }
    if left == 0 {
        return Err(Fault {
            kind: Fault::TOO_DEEP,
            at,
        });
    }
    let tag = bundle_tag(bytes);
    if is_early(outer, tag) {
        return Err(Fault {
            kind: Fault::TAG_BEFORE,
            at: at + 8,
        });
    }
    Ok(effective_tag(outer, tag))
}

/// Whether an element is a bundle.
pub(crate) fn is_bundle(element: &[u8]) -> bool
    requires { 0 < length element.now }
    ensures { result ≡ Reading.is_bundle element.now }
{
    element[0] == b'#'
}

/// The elements of a bundle.
pub(crate) fn bundle_elements(bytes: &[u8]) -> &[u8]
    requires { BUNDLE_HEAD ≤ length bytes.now }
    ensures { result.now ≡ drop BUNDLE_HEAD bytes.now }
{
    let (_, elements) = bytes.split_at(BUNDLE_HEAD);
    elements
}

/// The time tag of a bundle.
pub(crate) fn bundle_tag(bytes: &[u8]) -> u64
    requires { BUNDLE_HEAD ≤ length bytes.now }
    ensures { result ≡ Reading.bundle_tag bytes.now }
{
    let tag = &bytes[8..BUNDLE_HEAD];
    u64::from_be_bytes([
        tag[0], tag[1], tag[2], tag[3], tag[4], tag[5], tag[6], tag[7],
    ])
}

fn is_early(outer: Option<u64>, tag: u64) -> bool
    ensures { result ≡ Reading.is_early outer tag }
{
    match outer {
        Some(outer) => tag != IMMEDIATELY && tag < outer,
        None => false,
    }
}

/// The effective tag of a bundle with this tag, in one with this effective tag.
pub(crate) fn effective_tag(outer: Option<u64>, tag: u64) -> u64
    ensures { result ≡ Packets.effective_tag outer tag }
{
    match outer {
        Some(outer) if tag == IMMEDIATELY => outer,
        _ => tag,
    }
}

/// Checks the elements that fill the bytes from `at` on, in a bundle with this effective tag.
#[cycle(elements)]
fn check_elements(bytes: &[u8], at: u32, left: u32, tag: u64) -> Result<(), Fault>
    requires fourfold { length bytes.now % 4 ≡ 0 }
    requires inside { at + length bytes.now ≤ MAX_PACKET }
    ensures { result_err result ≡ body_fault (element_fault left (Some tag)) at bytes.now }
{
    let mut rest = bytes;
    let mut place = at;
    while !rest.is_empty() {
        let size = check_size(rest, place)?;
        let (element, after) = split_element(rest, size);
        check_element(element, place + 4, left, Some(tag))?;
        rest = after;
        place += 4 + size as u32;
    }
    Ok(())
}

/// The size of the first element.
fn check_size(bytes: &[u8], at: u32) -> Result<usize, Fault>
    requires some_byte { 0 < length bytes.now }
    requires fourfold { length bytes.now % 4 ≡ 0 }
    ensures read { result ≡ size_read at bytes.now }
    ensures size { IfOk result
        (λ size. (0 < size) × (size % 4 ≡ 0) × (size + 4 ≤ length bytes.now)) }
{
    let size = first_size(bytes);
    if size < 4 || size % 4 != 0 || size > bytes.len() - 4 {
        return Err(Fault {
            kind: Fault::ELEMENT_SIZE,
            at,
        });
    }
    Ok(size)
}

/// The size that the bytes begin with.
pub(crate) fn first_size(bytes: &[u8]) -> usize
    requires { 4 ≤ length bytes.now }
    ensures { result ≡ Reading.first_size bytes.now }
{
    u32::from_be_bytes([bytes[0], bytes[1], bytes[2], bytes[3]]) as usize
}

/// The first element, which has this size, and what follows it.
pub(crate) fn split_element(bytes: &[u8], size: usize) -> (&[u8], &[u8])
    requires { size + 4 ≤ length bytes.now }
    ensures element { result.0.now ≡ take size (drop 4 bytes.now) }
    ensures rest { result.1.now ≡ drop size (drop 4 bytes.now) }
    ensures element_size { length result.0.now ≡ size }
    ensures rest_size { length result.1.now + size + 4 ≡ length bytes.now }
{
    let (_, elements) = bytes.split_at(4);
    elements.split_at(size)
}
