//! How the faults of images are spelled. A call that was refused memory is none of them.
use map_codec::{HandoverFault, RaiseFault};
use map_image::{ImageFault, WriteFault};
use row_words::{Output, RowFault};

/// Returns the word for what stops a handover or a takeover.
pub(crate) fn handover_word(fault: HandoverFault) -> Result<&'static str, RowFault> {
    match fault {
        HandoverFault::Refused => Ok("Refused"),
        HandoverFault::NoMemory => Err(RowFault::NoMemory),
    }
}

/// Returns the word for why bytes are no image.
pub(crate) fn image_word(fault: ImageFault) -> Result<&'static str, RowFault> {
    match fault {
        ImageFault::BadMagic => Ok("BadMagic"),
        ImageFault::BadVersion => Ok("BadVersion"),
        ImageFault::Short => Ok("Short"),
        ImageFault::Rest => Ok("Rest"),
        ImageFault::NotRising => Ok("NotRising"),
        ImageFault::BadName => Ok("BadName"),
        ImageFault::BadMark => Ok("BadMark"),
        ImageFault::ZeroUse => Ok("ZeroUse"),
        ImageFault::NoMemory => Err(RowFault::NoMemory),
    }
}

/// Returns the word for why an image has no text that may be written.
pub(crate) fn write_word(fault: WriteFault) -> Result<&'static str, RowFault> {
    match fault {
        WriteFault::NoSuchVersion => Ok("NoSuchVersion"),
        WriteFault::NamedOtherwise => Ok("NamedOtherwise"),
        WriteFault::CountTooLarge => Ok("CountTooLarge"),
        WriteFault::TooLong => Ok("TooLong"),
        WriteFault::NoMemory => Err(RowFault::NoMemory),
    }
}

/// Writes why an image isn't restored.
pub(crate) fn tell_raise_fault(output: &mut Output, fault: RaiseFault) -> Result<(), RowFault> {
    match fault {
        RaiseFault::OtherManifest => output.word("OtherManifest"),
        RaiseFault::BadChange(place) => {
            output.word("BadChange");
            output.number(place as u64);
        }
        RaiseFault::NoParent => output.word("NoParent"),
        RaiseFault::NoLink => output.word("NoLink"),
        RaiseFault::TwoNumbers => output.word("TwoNumbers"),
        RaiseFault::NumberTooHigh => output.word("NumberTooHigh"),
        RaiseFault::NoMemory => return Err(RowFault::NoMemory),
    }
    Ok(())
}
