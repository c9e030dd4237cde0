//! Calls of `broker_desk`. The first one of a case makes the desk, and a kernel at it. C is one of four connections,
//! 0 to 3, at which nobody is known at first; U is a unique, N a number, K a count; frames are those of `frame_calls`.
//!
//! `desk on C FRAME`: the frame that answers, an ask by its unique and request; or `closes`.
//! `desk post C G U ANSWER`: the same, for a Post at generation G of the answer to the ask of U.
//! `desk connect C`: ok. Nobody is known at the connection.
//! `desk leave C`: ok. The connection ends.
//! `desk close`: ok. `desk for-mount`: ok. The desk is one for a mount from then on, to which nobody came yet.
//! `desk running`: how many daemons run. `desk held N`: how often the kernel holds the number.
//! `desk issue REQUEST`: the unique, or none for a forget, or the fault.
//! `desk deliver`: unique and answer, or the fault.
//! `mount ask U REQUEST`: ok, or the fault. The kernel asks by a unique of its own.
//! `mount deliver`: unique and answer; or `unasked` and the answer; or the fault. `mount deliver-kept`: the same, behind what the
//! kernel may keep of the answer: `told`, `absence`, `listing` or `no-listing`.
//! `mount let-go`: ok. Where the kernel holds the next one of the directories that changed no more, it counts so no more.
//! `mount forget N K`, `mount take-back ANSWER`: ok, or the fault.
//! `mount hear BYTES`: `done`, `answers BYTES`, `leaves ask U`, `leaves K` for K forgets, or NotMounted.
use crate::broker_calls::{tell_delivered, tell_issued, tell_reply};
use crate::frame_calls::{read_frame, tell_frame};
use crate::{Called, tell_fault};
use broker_core::{DeliverFault, IssueFault};
use broker_desk::{Delivered, Desk, Kernel, Peer, Progress, Response};
use byte_codec::Bytes;
use eden_base::Number;
use frames::Frame;
use fuse_wire::{Ask, Item, MAX_REPLY_LEN, Reply, write_reply};
use mount_wire::{BatchReader, Kept, KernelMessage, read_message};
use row_words::{
    Output, RowFault, Words, chosen, read_answer, read_request, tell_answer, tell_request,
    tell_wire_fault,
};
use std::alloc::Global;

/// The calls of a connection.
#[derive(Clone, Copy)]
enum PeerCall {
    On,
    Post,
    Connect,
    Leave,
}

static PEER_CALLS: [(&str, PeerCall); 4] = [
    ("on", PeerCall::On),
    ("post", PeerCall::Post),
    ("connect", PeerCall::Connect),
    ("leave", PeerCall::Leave),
];

/// The calls of a desk that are of no connection.
#[derive(Clone, Copy)]
enum DeskCall {
    Close,
    Running,
    Held,
    Issue,
    Deliver,
    ForMount,
}

static DESK_CALLS: [(&str, DeskCall); 6] = [
    ("close", DeskCall::Close),
    ("running", DeskCall::Running),
    ("held", DeskCall::Held),
    ("issue", DeskCall::Issue),
    ("deliver", DeskCall::Deliver),
    ("for-mount", DeskCall::ForMount),
];

/// The calls of a kernel.
#[derive(Clone, Copy)]
enum MountCall {
    Ask,
    Deliver,
    DeliverKept,
    LetGo,
    Forget,
    TakeBack,
    Hear,
}

static MOUNT_CALLS: [(&str, MountCall); 7] = [
    ("ask", MountCall::Ask),
    ("deliver", MountCall::Deliver),
    ("deliver-kept", MountCall::DeliverKept),
    ("let-go", MountCall::LetGo),
    ("forget", MountCall::Forget),
    ("take-back", MountCall::TakeBack),
    ("hear", MountCall::Hear),
];

/// A desk, the kernel at it, and who is at each connection.
#[derive(Drop)]
pub(crate) struct Mount {
    desk: Desk,
    kernel: Kernel,
    peers: [Peer; 4],
}

/// Returns the mount in `place`, and makes one if there is none.
fn mount_in(alloc: Global, place: &mut Option<Mount>) -> Result<&mut Mount, RowFault> {
    if place.is_none() {
        *place = Some(Mount {
            desk: Desk::new(alloc)?,
            kernel: Kernel::new(alloc)?,
            peers: [Peer::Unattached; 4],
        });
    }
    place.as_mut().ok_or(RowFault::BadRow)
}

/// Writes the request that `bytes` are.
fn tell_asked(alloc: Global, output: &mut Output, bytes: &[u8]) {
    match fuse_wire::read_request(alloc, bytes) {
        Ok(ask) => {
            output.word("ask");
            output.number(ask.unique);
            tell_request(output, &ask.what);
        }
        Err(fault) => tell_wire_fault(output, fault),
    }
}

/// Writes an answer of the desk.
fn tell_response(alloc: Global, output: &mut Output, response: &Response) {
    match response {
        Response::Closes => output.word("closes"),
        Response::Tells(Frame::Ask(request)) => tell_asked(alloc, output, request.as_slice()),
        Response::Tells(frame) => tell_frame(output, frame),
    }
}

/// Reads a Post of an answer.
fn read_post(alloc: Global, words: &mut Words<'_>) -> Result<Frame, RowFault> {
    let generation = words.number();
    let unique = words.number();
    let answer = read_answer(words)?;
    let mut head = [0; MAX_REPLY_LEN];
    let reply = Reply { unique, answer };
    let len = write_reply(&reply, &mut head);
    let mut bytes = Vec::from_slice(alloc, &head[..len])?;
    bytes.extend_from_slice(reply.answer.buffer())?;
    let reply = Bytes::of(bytes);
    Ok(Frame::Post { generation, reply })
}

/// Has the desk answer `frame`, which comes from `peer`.
fn answer(alloc: Global, desk: &mut Desk, peer: &mut Peer, frame: &mut Frame, output: &mut Output) {
    let response = desk.answer(peer, frame);
    tell_response(alloc, output, &response);
}

/// Reads the frame of a call: a Post of an answer, or else any frame. No word may follow it.
fn frame_of(alloc: Global, call: PeerCall, words: &mut Words<'_>) -> Result<Frame, RowFault> {
    let frame = match call {
        PeerCall::Post => read_post(alloc, words)?,
        _ => read_frame(words)?,
    };
    words.end()?;
    Ok(frame)
}

/// Makes a call of the peer at a connection.
fn call_peer(
    alloc: Global,
    mount: &mut Mount,
    call: PeerCall,
    words: &mut Words<'_>,
    output: &mut Output,
) -> Called {
    let index = usize::try_from(words.number())
        .ok()
        .ok_or(RowFault::BadRow)?;
    let peer = mount.peers.get_mut(index).ok_or(RowFault::BadRow)?;
    let desk = &mut mount.desk;
    match call {
        PeerCall::On | PeerCall::Post => {
            let mut frame = frame_of(alloc, call, words)?;
            answer(alloc, desk, peer, &mut frame, output);
            return Ok(());
        }
        PeerCall::Connect => *peer = Peer::Unattached,
        PeerCall::Leave => desk.leave(*peer),
    }
    output.word("ok");
    words.end()
}

/// Makes a call of the desk in `place`.
pub(crate) fn call_desk(
    alloc: Global,
    place: &mut Option<Mount>,
    words: &mut Words<'_>,
    output: &mut Output,
) -> Called {
    let mount = mount_in(alloc, place)?;
    let word = words.word();
    if let Some(call) = chosen(&PEER_CALLS, word) {
        return call_peer(alloc, mount, call, words, output);
    }
    match chosen(&DESK_CALLS, word).ok_or(RowFault::BadRow)? {
        DeskCall::Close => {
            mount.desk.close();
            output.word("ok");
        }
        DeskCall::Running => output.number(mount.desk.running() as u64),
        DeskCall::Held => output.number(mount.desk.broker().held(Number(words.number()))),
        DeskCall::Issue => {
            let request = read_request(alloc, words)?;
            return tell_issued(output, mount.desk.issue(&request));
        }
        DeskCall::Deliver => return tell_delivered(output, mount.desk.deliver()),
        DeskCall::ForMount => {
            mount.desk = Desk::for_mount(alloc)?;
            output.word("ok");
        }
    }
    words.end()
}

/// Writes the result of an ask or a forget.
fn tell_accepted(output: &mut Output, accepted: Result<(), IssueFault>) -> Called {
    match accepted {
        Ok(()) => output.word("ok"),
        Err(IssueFault::NoMemory) => return Err(RowFault::NoMemory),
        Err(fault) => tell_fault(output, fault),
    }
    Ok(())
}

/// Writes what was delivered.
fn tell_brought(output: &mut Output, delivered: Delivered) {
    match delivered {
        Delivered::Reply(reply, _) => tell_reply(output, &reply),
        Delivered::Unasked(answer) => {
            output.word("unasked");
            tell_answer(output, &answer);
        }
    }
}

/// Writes what the kernel may keep of an answer.
fn tell_kept(output: &mut Output, delivered: &Result<Delivered, DeliverFault>) {
    if let Ok(Delivered::Reply(_, kept)) = delivered {
        output.word(match kept {
            Kept::Told => "told",
            Kept::Absence => "absence",
            Kept::Listing => "listing",
            Kept::NoListing => "no-listing",
        });
    }
}

/// Writes the result of a kernel's delivery.
fn tell_delivery(output: &mut Output, delivered: Result<Delivered, DeliverFault>) -> Called {
    match delivered {
        Ok(delivered) => tell_brought(output, delivered),
        Err(DeliverFault::NoMemory) => return Err(RowFault::NoMemory),
        Err(fault) => tell_fault(output, fault),
    }
    Ok(())
}

/// Counts items, up to 5,000.
fn count(items: BatchReader<'_>) -> u64 {
    let mut items = items;
    for counted in 0..5000 {
        if items.first().is_none() {
            return counted;
        }
        items.skip_first();
    }
    5000
}

/// Writes what is left of a message.
fn tell_left(output: &mut Output, message: KernelMessage<'_>) {
    output.word("leaves");
    match message {
        KernelMessage::Asked(ask) => {
            output.word("ask");
            output.number(ask.unique);
        }
        KernelMessage::Forgot(_item) => output.number(1),
        KernelMessage::ForgotMany(items) => output.number(count(items)),
        _ => output.word("nothing"),
    }
}

/// Has the desk hear a message.
fn hear(alloc: Global, mount: &mut Mount, words: &mut Words<'_>, output: &mut Output) -> Called {
    let bytes = words.bytes();
    words.end()?;
    let message = read_message(alloc, bytes.as_slice());
    match mount.kernel.hear(&mut mount.desk, message) {
        Progress::Done => output.word("done"),
        Progress::Answers(reply) => {
            output.word("answers");
            output.hex(reply.as_slice());
        }
        Progress::Leaves(message) => tell_left(output, message),
        Progress::NotMounted => output.word("NotMounted"),
    }
    Ok(())
}

/// Has the kernel ask.
fn ask(alloc: Global, mount: &mut Mount, words: &mut Words<'_>, output: &mut Output) -> Called {
    let unique = words.number();
    let what = read_request(alloc, words)?;
    if !what.is_ask() {
        return Err(RowFault::BadRow);
    }
    let ask = Ask { unique, what };
    let accepted = mount.kernel.ask(&mut mount.desk, &ask);
    drop(ask);
    tell_accepted(output, accepted)
}

/// Makes a call of the kernel in `place`.
pub(crate) fn call_mount(
    alloc: Global,
    place: &mut Option<Mount>,
    words: &mut Words<'_>,
    output: &mut Output,
) -> Called {
    let mount = mount_in(alloc, place)?;
    match chosen(&MOUNT_CALLS, words.word()).ok_or(RowFault::BadRow)? {
        MountCall::Ask => ask(alloc, mount, words, output),
        MountCall::Hear => hear(alloc, mount, words, output),
        MountCall::Forget => {
            let node = Number(words.number());
            let k = words.number();
            tell_accepted(output, mount.desk.forget(Item { node, k }))
        }
        MountCall::TakeBack => {
            let answer = read_answer(words)?;
            tell_accepted(output, mount.desk.take_back(answer.given_out()))
        }
        MountCall::Deliver => tell_delivery(output, mount.kernel.deliver(&mut mount.desk)),
        MountCall::DeliverKept => {
            let delivered = mount.kernel.deliver(&mut mount.desk);
            tell_kept(output, &delivered);
            tell_delivery(output, delivered)
        }
        MountCall::LetGo => {
            mount.kernel.let_go(&mount.desk);
            output.word("ok");
            words.end()
        }
    }
}
