//! The header and the messages of entries, appended to bytes that have room for them.
ghost use Rattle.osc_model.specs.Limits.{max_recording};
ghost use Rattle.osc_atoms.specs.declared.limits.TheConstants.{MAX_BYTES};
ghost use Rattle.osc_atoms.specs.Atoms.{word, tag, blob, blob_end, string, has_no_zero};
ghost use Rattle.osc_record.specs.declared.entry_messages.TheConstants.{SUBMIT};
ghost use Rattle.std.specs.Prelude.{◌≡◌, ◌+◌, ◌≤◌, ◌++◌, ℤ, length, replicate, IsTrue};
ghost use Rattle.std.specs.Vec.{vec_len, vec_capacity};
ghost use Rattle.osc_message.specs.Messages.{AllFit};
ghost use Rattle.osc_model.specs.Recordings.{sized, row_text, enrol_row, submit_row, add_row};
ghost use Rattle.osc_model.specs.Recordings.{remove_row, tick_row, header_text};
ghost use Rattle.osc_record.specs.Shown.{numbers_of};

use crate::caps::Caps;
use crate::entry_messages::{ADD, REMOVE};
use crate::message::append_message;
use crate::policy::late_code;
use osc_atoms::{append_string, append_word, blob_size, string_size, write_tag, write_word};
use osc_message::Arg;

/// How many bytes the message of a submit has besides its packet.
const SUBMIT_HEAD: u32 = 44;

/// How many bytes the message of an add has besides its address, and that of a remove.
const ADD_HEAD: u32 = 36;

const REMOVE_HEAD: u32 = 32;

/// Appends the header to bytes that have room for it.
pub fn append_header(out: &mut Vec<u8>, caps: Caps)
    requires room { vec_len out.old + length (header_text caps) ≤ vec_capacity out.old }
    ensures out { out.new.items ≡ out.old.items ++ header_text caps }
    ensures capacity { vec_capacity out.old ≤ vec_capacity out.new }
{
    append_message(
        out,
        b"/osc/rec",
        b",iiiiiiii",
        &[
            Arg::Int(2),
            Arg::Int(caps.units() as i32),
            Arg::Int(caps.blocks() as i32),
            Arg::Int(caps.methods() as i32),
            Arg::Int(caps.nodes() as i32),
            Arg::Int(caps.callers() as i32),
            Arg::Int(caps.recording() as i32),
            Arg::Int(late_code(caps.late()) as i32),
        ],
    );
}

pub(crate) fn append_enrol(out: &mut Vec<u8>, caller: u32, answer: i32)
    requires fits { AllFit (enrol_row caller answer).arguments }
    requires room { vec_len out.old + length (sized (row_text (enrol_row caller answer)))
        ≤ vec_capacity out.old }
    ensures out { out.new.items ≡ out.old.items ++ sized (row_text (enrol_row caller answer)) }
    ensures capacity { vec_capacity out.old ≤ vec_capacity out.new }
{
    append_message(
        out,
        b"/osc/enrol",
        b",ii",
        &[Arg::Int(caller as i32), Arg::Int(answer)],
    );
}

/// The answer to a submit, as its code and three numbers (docs/FORMATS.md, "The recording").
#[derive(Clone, Copy)]
pub(crate) struct Numbers {
    pub(crate) code: u32,
    pub(crate) first: u64,
    pub(crate) second: u32,
    pub(crate) third: u32,
}

/// Appends a submit with the numbers of its answer.
#[inline(always)]
pub(crate) fn append_submit(out: &mut Vec<u8>, caller: u32, packet: &[u8], answer: Numbers)
    requires fits { AllFit (submit_row caller packet.now (numbers_of answer)).arguments }
    requires small { length (row_text (submit_row caller packet.now (numbers_of answer)))
        ≤ max_recording }
    requires room { vec_len out.old
        + length (sized (row_text (submit_row caller packet.now (numbers_of answer))))
        ≤ vec_capacity out.old }
    ensures out { out.new.items ≡ out.old.items
        ++ sized (row_text (submit_row caller packet.now (numbers_of answer))) }
    ensures capacity { vec_capacity out.old ≤ vec_capacity out.new }
{
    let size = SUBMIT_HEAD + blob_size(packet.len()) as u32;
    append_submit_row(out, size, caller, packet, answer);
}

/// Appends the message of a submit after its size, number by number: a packet comes more often than
/// anything else.
#[inline(always)]
fn append_submit_row(out: &mut Vec<u8>, size: u32, caller: u32, packet: &[u8], answer: Numbers)
    requires packet { length packet.now ≤ MAX_BYTES }
    requires room { vec_len out.old + (48 + length (blob packet.now)) ≤ vec_capacity out.old }
    ensures out { out.new.items ≡ out.old.items
        ++ (word size ++ (SUBMIT ++ (word caller ++ (blob packet.now
        ++ (word answer.code ++ (tag answer.first
        ++ (word answer.second ++ word answer.third))))))) }
    ensures capacity { vec_capacity out.old ≤ vec_capacity out.new }
{
    append_bytes(out, &submit_front(size, caller, packet.len() as u32));
    append_padded(out, packet);
    append_bytes(out, &submit_back(answer));
}

/// The bytes of a submit before its packet, for one copy.
fn submit_front(size: u32, caller: u32, count: u32) -> [u8; 32]
    ensures { result ≡ word size ++ (SUBMIT ++ (word caller ++ word count)) }
{
    let mut front = *b"\0\0\0\0/osc/submit\0,ibihii\0\0\0\0\0\0\0\0\0";
    write_word(&mut front, 0, size);
    write_word(&mut front, 24, caller);
    write_word(&mut front, 28, count);
    front
}

/// The bytes of a submit after its packet.
fn submit_back(answer: Numbers) -> [u8; 20]
    ensures { result ≡ word answer.code
        ++ (tag answer.first ++ (word answer.second ++ word answer.third)) }
{
    let mut back = [0; 20];
    write_word(&mut back, 0, answer.code);
    write_tag(&mut back, 4, answer.first);
    write_word(&mut back, 12, answer.second);
    write_word(&mut back, 16, answer.third);
    back
}

/// Appends bytes and the zero bytes that pad a blob of them, mostly none.
fn append_padded(out: &mut Vec<u8>, bytes: &[u8])
    requires small { length bytes.now ≤ MAX_BYTES }
    requires room { vec_len out.old + (length bytes.now + blob_end (length bytes.now))
        ≤ vec_capacity out.old }
    ensures out { out.new.items
        ≡ out.old.items ++ (bytes.now ++ replicate (blob_end (length bytes.now)) 0) }
    ensures capacity { vec_capacity out.old ≤ vec_capacity out.new }
{
    append_bytes(out, bytes);
    let end = (4 - bytes.len() % 4) % 4;
    if end > 0 {
        append_bytes(out, &[0; 4][..end]);
    }
}

/// Appends bytes for which there is room.
pub(crate) fn append_bytes(out: &mut Vec<u8>, bytes: &[u8])
    requires { vec_len out.old + length bytes.now ≤ vec_capacity out.old }
    ensures out { out.new.items ≡ out.old.items ++ bytes.now }
    ensures capacity { vec_capacity out.old ≤ vec_capacity out.new }
{
    match out.extend_from_slice(bytes) {
        Ok(()) => {}
        Err(_) => unreachable!(),
    }
}

/// Appends an add with the code and the two numbers of its answer.
pub(crate) fn append_add(
    out: &mut Vec<u8>,
    caller: u32,
    address: &[u8],
    code: u32,
    first: u32,
    second: u32,
)
    requires fits { AllFit (add_row caller address.now (code, first, second)).arguments }
    requires small { length (row_text (add_row caller address.now (code, first, second)))
        ≤ max_recording }
    requires room { vec_len out.old + length
        (sized (row_text (add_row caller address.now (code, first, second))))
        ≤ vec_capacity out.old }
    ensures out { out.new.items ≡ out.old.items
        ++ sized (row_text (add_row caller address.now (code, first, second))) }
    ensures capacity { vec_capacity out.old ≤ vec_capacity out.new }
{
    let size = ADD_HEAD + string_size(address.len()) as u32;
    append_address_row(out, size, &ADD, caller, address, code);
    append_word(out, first);
    append_word(out, second);
}

/// Appends a remove with the code and the id of its answer.
pub(crate) fn append_remove(out: &mut Vec<u8>, caller: u32, address: &[u8], code: u32, id: u32)
    requires fits { AllFit (remove_row caller address.now (code, id)).arguments }
    requires small { length (row_text (remove_row caller address.now (code, id))) ≤ max_recording }
    requires room { vec_len out.old + length
        (sized (row_text (remove_row caller address.now (code, id)))) ≤ vec_capacity out.old }
    ensures out { out.new.items ≡ out.old.items
        ++ sized (row_text (remove_row caller address.now (code, id))) }
    ensures capacity { vec_capacity out.old ≤ vec_capacity out.new }
{
    let size = REMOVE_HEAD + string_size(address.len()) as u32;
    append_address_row(out, size, &REMOVE, caller, address, code);
    append_word(out, id);
}

/// Appends what the message of an add or a remove has before its last numbers, after its size,
/// number by number.
fn append_address_row(
    out: &mut Vec<u8>,
    size: u32,
    front: &[u8; 20],
    caller: u32,
    address: &[u8],
    code: u32,
)
    requires address { IsTrue (has_no_zero address.now) }
    requires room { vec_len out.old + (32 + length (string address.now)) ≤ vec_capacity out.old }
    ensures out { out.new.items ≡ out.old.items
        ++ (word size ++ (front.now ++ (word caller ++ (string address.now ++ word code)))) }
    ensures capacity { vec_capacity out.old ≤ vec_capacity out.new }
{
    append_word(out, size);
    append_bytes(out, front);
    append_word(out, caller);
    append_string(out, address);
    append_word(out, code);
}

/// Appends a tick with the code of its answer and the clock after it.
pub(crate) fn append_tick(out: &mut Vec<u8>, caller: u32, moment: u64, code: u32, clock: u64)
    requires fits { AllFit (tick_row caller moment (code, clock)).arguments }
    requires room { vec_len out.old + length
        (sized (row_text (tick_row caller moment (code, clock)))) ≤ vec_capacity out.old }
    ensures out { out.new.items ≡ out.old.items
        ++ sized (row_text (tick_row caller moment (code, clock))) }
    ensures capacity { vec_capacity out.old ≤ vec_capacity out.new }
{
    append_message(
        out,
        b"/osc/tick",
        b",itit",
        &[
            Arg::Int(caller as i32),
            Arg::Time(moment),
            Arg::Int(code as i32),
            Arg::Time(clock),
        ],
    );
}
