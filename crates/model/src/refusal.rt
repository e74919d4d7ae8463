// Why a call refuses (01, "Numbers given back"): the number that it gives back is `as u8`.
ghost use Rattle.std.specs.Prelude.{◌≡◌};
ghost use Rattle.model.specs.Numbers.{refusal_number, answer_number};

#[derive(Clone, Copy, PartialEq, Eq, Debug)]
pub enum Refusal {
    // port is 0 or above the bridge's ports
    Port = 1,
    // PDU has 0 octets or more than 1,500
    PduLength = 2,
    // a field runs past the PDU or its list, or a list's EndMark isn't its last two octets
    PastEnd = 3,
    // AttributeType 0; or above 4 with ProtocolVersion 0
    AttributeType = 4,
    // AttributeLength not that of the type
    AttributeLength = 5,
    // with ProtocolVersion 0, LeaveAllEvent above 1 or a ThreePackedEvents octet above 215
    Event = 6,
    // a value runs past its field
    Value = 7,
    // streams held plus different new ones joined by this PDU exceed 64
    Streams = 8,
    // time is below the held clock
    Time = 9,
    // output buffer shorter than 1,500; for why, than 1,008
    Buffer = 10,
    // settings not as laid out
    Settings = 11,
    // table has the wrong length or breaks a form rule
    Table = 12,
    // place is above the number of declarations or streams held
    Place = 13,
    // a port would need a 65th address
    Addresses = 14,
    // the stream isn't held
    Stream = 15,
}

impl From<Refusal> for u8 {
    ghost from_gives = { λ r n. n ≡ refusal_number r };

    fn from(refusal: Refusal) -> u8 {
        refusal as u8
    }
}

// The number that a call gives back: 0 where it isn't refused.
pub fn number(answer: Result<(), Refusal>) -> u8
    ensures { result ≡ answer_number answer }
{
    match answer {
        Ok(()) => 0,
        Err(refusal) => refusal as u8,
    }
}
