//! The kinds of frames, and their numbers.
ghost use Rattle.std.specs.Prelude.{◌≡◌};
ghost use Rattle.frames.specs.Kind.{kind_with, message_kind_with, number_of, message_number};

/// The kind of a takeover's message.
#[derive(Clone, Copy)]
pub(crate) enum MessageKind {
    Offer,
    Choice,
    NoCommon,
    Busy,
    Ready,
    Pong,
    Data,
    Failed,
    Part,
}

/// The kind of a frame.
#[derive(Clone, Copy)]
pub(crate) enum FrameKind {
    Take,
    Ask,
    Empty,
    Post,
    Posted,
    Ended,
    Stale,
    NotAsked,
    Claim,
    Claimed,
    Unanswered,
    LastGeneration,
    Mount,
    Mounted,
    Seated,
    Attach,
    Attached,
    Takeover(MessageKind),
}

impl MessageKind {
    /// Returns the kind of message that has this number, if there is one.
    #[tactic(auto, unfolding(crate::specs::Kind::message_kind_with))]
    pub(crate) fn with(number: u8) -> Option<MessageKind>
        ensures kind { result ≡ message_kind_with number }
    {
        match number {
            32 => Some(MessageKind::Offer),
            33 => Some(MessageKind::Choice),
            34 => Some(MessageKind::NoCommon),
            35 => Some(MessageKind::Busy),
            36 => Some(MessageKind::Ready),
            37 => Some(MessageKind::Pong),
            38 => Some(MessageKind::Data),
            39 => Some(MessageKind::Failed),
            40 => Some(MessageKind::Part),
            _ => None,
        }
    }

    /// Returns the number of the kind.
    pub(crate) fn number(self) -> u8
        ensures number { result ≡ message_number self }
    {
        match self {
            MessageKind::Offer => 32,
            MessageKind::Choice => 33,
            MessageKind::NoCommon => 34,
            MessageKind::Busy => 35,
            MessageKind::Ready => 36,
            MessageKind::Pong => 37,
            MessageKind::Data => 38,
            MessageKind::Failed => 39,
            MessageKind::Part => 40,
        }
    }
}

impl FrameKind {
    /// Returns the kind of frame that has this number, if there is one.
    #[tactic(auto, unfolding(crate::specs::Kind::kind_with))]
    pub(crate) fn with(number: u8) -> Option<FrameKind>
        ensures kind { result ≡ kind_with number }
    {
        match number {
            1 => Some(FrameKind::Take),
            2 => Some(FrameKind::Ask),
            3 => Some(FrameKind::Empty),
            4 => Some(FrameKind::Post),
            5 => Some(FrameKind::Posted),
            6 => Some(FrameKind::Ended),
            7 => Some(FrameKind::Stale),
            8 => Some(FrameKind::NotAsked),
            9 => Some(FrameKind::Claim),
            10 => Some(FrameKind::Claimed),
            11 => Some(FrameKind::Unanswered),
            12 => Some(FrameKind::LastGeneration),
            13 => Some(FrameKind::Mount),
            14 => Some(FrameKind::Mounted),
            15 => Some(FrameKind::Seated),
            16 => Some(FrameKind::Attach),
            17 => Some(FrameKind::Attached),
            other => match MessageKind::with(other) {
                Some(kind) => Some(FrameKind::Takeover(kind)),
                None => None,
            },
        }
    }

    /// Returns the number of the kind.
    pub(crate) fn number(self) -> u8
        ensures number { result ≡ number_of self }
    {
        match self {
            FrameKind::Take => 1,
            FrameKind::Ask => 2,
            FrameKind::Empty => 3,
            FrameKind::Post => 4,
            FrameKind::Posted => 5,
            FrameKind::Ended => 6,
            FrameKind::Stale => 7,
            FrameKind::NotAsked => 8,
            FrameKind::Claim => 9,
            FrameKind::Claimed => 10,
            FrameKind::Unanswered => 11,
            FrameKind::LastGeneration => 12,
            FrameKind::Mount => 13,
            FrameKind::Mounted => 14,
            FrameKind::Seated => 15,
            FrameKind::Attach => 16,
            FrameKind::Attached => 17,
            FrameKind::Takeover(kind) => kind.number(),
        }
    }
}
