// AttributeTypes (Tables 35-1, 35-2), and what a stream is registered as.
ghost use Rattle.std.specs.Prelude.{◌≡◌};
ghost use Rattle.model.specs.Attributes.{attribute_at, type_of, of_stream};
ghost use Rattle.model.specs.Frames.{first_length, has_four, type_number};

use crate::pdu;

// The octet of one is `as u8`.
#[derive(Clone, Copy, PartialEq, Eq, Debug)]
pub enum Attribute {
    Advertise = 1,
    Failed = 2,
    Listener = 3,
    Domain = 4,
}

// Those of a Talker, with the same octets.
#[derive(Clone, Copy, PartialEq, Eq, Debug)]
pub enum TalkerAttribute {
    Advertise = 1,
    Failed = 2,
}

// Those that register a stream.
#[derive(Clone, Copy, PartialEq, Eq, Debug)]
pub enum StreamAttribute {
    Talker(TalkerAttribute),
    Listener,
}

impl Attribute {
    // What an AttributeType octet says, where it is known here.
    pub fn from_octet(octet: u8) -> Option<Self>
        ensures { result ≡ attribute_at octet }
    {
        match octet {
            1 => Some(Attribute::Advertise),
            2 => Some(Attribute::Failed),
            3 => Some(Attribute::Listener),
            4 => Some(Attribute::Domain),
            _ => None,
        }
    }

    // The octets of FirstValue.
    #[tactic(auto, unfolding(crate::specs::Frames::first_length))]
    pub fn first_length(self) -> usize
        ensures { result ≡ first_length (type_of self) }
    {
        match self {
            Attribute::Advertise => pdu::ADVERTISE,
            Attribute::Failed => pdu::FAILED,
            Attribute::Listener => pdu::LISTENER,
            Attribute::Domain => pdu::DOMAIN,
        }
    }

    // Whether its vectors have FourPackedEvents.
    #[tactic(auto, unfolding(crate::specs::Frames::has_four))]
    pub fn has_four_packed(self) -> bool
        ensures { result ≡ has_four (type_of self) }
    {
        match self {
            Attribute::Listener => true,
            _ => false,
        }
    }

    // What it registers a stream as; a Domain value registers none.
    pub fn of_stream(self) -> Option<StreamAttribute>
        ensures { result ≡ of_stream self }
    {
        match self {
            Attribute::Advertise => Some(StreamAttribute::Talker(TalkerAttribute::Advertise)),
            Attribute::Failed => Some(StreamAttribute::Talker(TalkerAttribute::Failed)),
            Attribute::Listener => Some(StreamAttribute::Listener),
            Attribute::Domain => None,
        }
    }
}

impl From<Attribute> for u8 {
    ghost from_gives = { λ a n. n ≡ type_number (type_of a) };

    #[tactic(auto, using(crate::proofs::Attributes::octets_of))]
    fn from(attribute: Attribute) -> u8 {
        attribute as u8
    }
}
