//! Messages of a kernel, and what it is told.
//!
//! `kernel header BYTES`: OPCODE UNIQUE. `kernel responder OPCODE`. `kernel agree BYTES`: MINOR READAHEAD FLAGS of what
//! is agreed to that offer, or `MajorAlone`. `kernel offer BYTES`: UNIQUE MAJOR MINOR READAHEAD FLAGS.
//! `kernel init BYTES`: the bytes of the reply to it. `kernel statfs UNIQUE`: the bytes of the reply.
//! `kernel items BYTES`: the items of a batch of forgets, each as the 16 bytes that it has there.
//! `kernel read BYTES`: what becomes of a message: `asked UNIQUE REQUEST`, `forgot N K`, `forgot_many`, `ignored`, or the
//! bytes of a reply. `kernel error UNIQUE ERRNO`, `kernel tell UNIQUE SECONDS NANOSECONDS USER GROUP VALID ANSWER`: the bytes of
//! that reply. `kernel tell-absence ..`, `kernel tell-listing ..` and `kernel tell-no-listing ..`: the same, by what
//! the kernel may keep of it.
use mount_wire::{
    Agreement, BatchReader, FileOwner, Kept, KernelMessage, KernelMessageFault, MountAttributes,
    MountTime, Offer, RequestHeader, Responder, agree, answer_init, answer_statfs, read_header,
    read_message, read_offer, responder_of, tell_answer, tell_error,
};
use row_words::{
    Output, RowFault, Words, chosen, read_answer, read_errno, read_u32, tell_items, tell_request,
};
use std::alloc::Global;

/// The calls that have numbers.
#[derive(Clone, Copy)]
enum KernelCall {
    Responder,
    Statfs,
    Error,
    Tell(Kept),
}

static KERNEL_CALLS: [(&str, KernelCall); 7] = [
    ("responder", KernelCall::Responder),
    ("statfs", KernelCall::Statfs),
    ("error", KernelCall::Error),
    ("tell", KernelCall::Tell(Kept::Told)),
    ("tell-absence", KernelCall::Tell(Kept::Absence)),
    ("tell-listing", KernelCall::Tell(Kept::Listing)),
    ("tell-no-listing", KernelCall::Tell(Kept::NoListing)),
];

/// How many items a message may have.
const MOST_ITEMS: usize = 1 << 16;

/// The field of a reply that says ENOMEM.
const NO_MEMORY: [u8; 4] = [0xf4, 0xff, 0xff, 0xff];

/// Returns how a fault is spelled.
fn fault_name(fault: KernelMessageFault) -> &'static str {
    match fault {
        KernelMessageFault::Short => "Short",
        KernelMessageFault::BadLength => "BadLength",
        KernelMessageFault::BadOpcode => "BadOpcode",
        KernelMessageFault::BadBody => "BadBody",
        KernelMessageFault::BadCount => "BadCount",
        KernelMessageFault::TooOld => "TooOld",
    }
}

/// Returns how a responder is spelled.
fn responder_name(responder: Responder) -> &'static str {
    match responder {
        Responder::Init => "Init",
        Responder::Statfs => "Statfs",
        Responder::Opendir => "Opendir",
        Responder::Releasedir => "Releasedir",
        Responder::Allowed => "Allowed",
        Responder::Refused => "Refused",
        Responder::Nobody => "Nobody",
        Responder::Daemon => "Daemon",
    }
}

/// Writes an offer.
fn tell_offer(offer: &Offer, output: &mut Output) {
    output.number(offer.unique);
    output.number(u64::from(offer.major));
    output.number(u64::from(offer.minor));
    output.number(u64::from(offer.max_readahead));
    output.number(u64::from(offer.flags));
}

/// Writes what is agreed to an offer.
fn tell_agreement(offer: &Offer, output: &mut Output) {
    match agree(offer) {
        Ok(
            Agreement::Version {
                minor,
                max_readahead,
                flags,
            },
        ) => {
            output.number(u64::from(minor));
            output.number(u64::from(max_readahead));
            output.number(u64::from(flags));
        }
        Ok(Agreement::MajorAlone) => output.word("MajorAlone"),
        Err(fault) => output.word(fault_name(fault)),
    }
}

/// Reads the offer in `bytes`, and writes it, what is agreed to it, or the reply to it.
fn call_offer(call: &[u8], bytes: &[u8], output: &mut Output) {
    match read_offer(bytes) {
        Ok(offer) => match call {
            b"offer" => tell_offer(&offer, output),
            b"agree" => tell_agreement(&offer, output),
            _ => output.bytes(answer_init(&offer).as_slice()),
        },
        Err(fault) => output.word(fault_name(fault)),
    }
}

/// Reads the header in `bytes`.
fn call_header(bytes: &[u8], output: &mut Output) {
    match read_header(bytes) {
        Ok(RequestHeader { opcode, unique }) => {
            output.number(u64::from(opcode));
            output.number(unique);
        }
        Err(fault) => output.word(fault_name(fault)),
    }
}

/// Appends the items that are left of `reader`, and goes one step further.
fn put_items(reader: &mut BatchReader<'_>, out: &mut Vec<u8>) -> Result<(), RowFault> {
    for _item in 0..MOST_ITEMS {
        let Some(item) = reader.first() else {
            break;
        };
        out.extend_from_slice(&item.node.0.to_le_bytes())?;
        out.extend_from_slice(&item.k.to_le_bytes())?;
        reader.skip_first();
    }
    reader.skip_first();
    if reader.first().is_some() {
        return Err(RowFault::BadRow);
    }
    Ok(())
}

/// Reads the items of a batch.
fn call_items(alloc: Global, bytes: &[u8], output: &mut Output) -> Result<(), RowFault> {
    match BatchReader::of(bytes) {
        Ok(mut reader) => {
            let mut out = Vec::new(alloc);
            put_items(&mut reader, &mut out)?;
            output.bytes(out.as_slice());
        }
        Err(fault) => output.word(fault_name(fault)),
    }
    Ok(())
}

/// Reads the message in `bytes`. A message that is answered ENOMEM was refused memory.
fn call_read(alloc: Global, bytes: &[u8], output: &mut Output) -> Result<(), RowFault> {
    match read_message(alloc, bytes) {
        KernelMessage::Answered(reply) => {
            if reply.as_slice().get(4..8) == Some(NO_MEMORY.as_slice()) {
                return Err(RowFault::NoMemory);
            }
            output.bytes(reply.as_slice());
        }
        KernelMessage::Asked(ask) => {
            output.word("asked");
            output.number(ask.unique);
            tell_request(output, &ask.what);
        }
        KernelMessage::Forgot(item) => {
            output.word("forgot");
            tell_items(output, &[item]);
        }
        KernelMessage::ForgotMany(_) => output.word("forgot_many"),
        KernelMessage::Ignored => output.word("ignored"),
    }
    Ok(())
}

/// Makes the call of `bytes` that `call` tells.
fn call_bytes(
    alloc: Global,
    call: &[u8],
    bytes: &[u8],
    output: &mut Output,
) -> Result<(), RowFault> {
    match call {
        b"read" => call_read(alloc, bytes, output)?,
        b"items" => call_items(alloc, bytes, output)?,
        b"header" => call_header(bytes, output),
        _ => call_offer(call, bytes, output),
    }
    Ok(())
}

/// Makes the call of a message that `call` tells.
fn call_message(call: &[u8], words: &mut Words<'_>, output: &mut Output) -> Result<(), RowFault> {
    let bytes = words.bytes();
    call_bytes(words.alloc(), call, bytes.as_slice(), output)?;
    words.end()
}

/// Reads what the attributes of each file of a mount have in common.
fn read_attributes(words: &mut Words<'_>) -> MountAttributes {
    let seconds = words.number();
    let nanoseconds = read_u32(words);
    let user = read_u32(words);
    let group = read_u32(words);
    let valid = words.number();
    MountAttributes {
        since: MountTime {
            seconds,
            nanoseconds,
        },
        owner: FileOwner { user, group },
        valid,
    }
}

/// Tells an answer, of which the kernel may keep what `kept` says.
fn call_tell(words: &mut Words<'_>, kept: Kept, output: &mut Output) -> Result<(), RowFault> {
    let alloc = words.alloc();
    let unique = words.number();
    let own = read_attributes(words);
    let answer = read_answer(words)?;
    output.bytes(tell_answer(alloc, unique, answer, kept, &own)?.as_slice());
    Ok(())
}

/// Makes a call of a kernel's messages.
pub(crate) fn call_kernel(words: &mut Words<'_>, output: &mut Output) -> Result<(), RowFault> {
    let word = words.word();
    match chosen(&KERNEL_CALLS, word) {
        Some(KernelCall::Responder) => output.word(responder_name(responder_of(read_u32(words)))),
        Some(KernelCall::Statfs) => output.bytes(answer_statfs(words.number()).as_slice()),
        Some(KernelCall::Error) => {
            let unique = words.number();
            output.bytes(tell_error(unique, read_errno(words)).as_slice());
        }
        Some(KernelCall::Tell(kept)) => return call_tell(words, kept, output),
        None => return call_message(word, words, output),
    }
    words.end()
}
