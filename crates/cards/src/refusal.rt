// Why a call on cards is refused, in words and numbers.
ghost use Rattle.std.specs.Prelude.{◌≡◌, Some};
ghost use Rattle.machine.specs.Calls.{number_of};
ghost use Rattle.cards.specs.declared.refusal.CardRefusal.TheVariants as card;
ghost use Rattle.cards.specs.Refusal.{refusal_of, block_of};
ghost use Rattle.cards.specs.Text.{text_of};

use refusals::Refusal;
use std::error::Error;
use std::fmt;

// A managed call's refusal, for the dimension, the capacity and the storage; or document 02's 15, 16 with a block, and 17.
#[derive(Clone, Copy, Debug, PartialEq, Eq)]
pub enum CardRefusal {
    Managed(Refusal),
    InvalidCardLength,
    DamagedBlock(usize),
    InvalidCard,
}

impl CardRefusal {
    // The block that it names, where it names one.
    pub fn block(self) -> Option<usize>
        ensures { result ≡ block_of (refusal_of self) }
    {
        match self {
            CardRefusal::DamagedBlock(block) => Some(block),
            _ => None,
        }
    }
}

// In words, with its block where it has one: a managed call's in that one's.
impl fmt::Display for CardRefusal {
    ghost output = { λ refused. Some (text_of refused) };

    fn fmt<W: fmt::Write>(&self, f: &mut fmt::Formatter<W>) -> fmt::Result {
        match self {
            CardRefusal::Managed(refusal) => write!(f, "{refusal}"),
            CardRefusal::InvalidCardLength => f.write_str("the card has the wrong length"),
            CardRefusal::DamagedBlock(block) => write!(f, "the check of block {block} is wrong"),
            CardRefusal::InvalidCard => f.write_str("the card is not in the format of cards"),
        }
    }
}

impl Error for CardRefusal {}

impl From<Refusal> for CardRefusal {
    ghost from_gives = { λ refused r. r ≡ card.Managed refused };

    fn from(refusal: Refusal) -> CardRefusal {
        CardRefusal::Managed(refusal)
    }
}

// Its number in the tables of documents 01 and 02.
impl From<CardRefusal> for u32 {
    ghost from_gives = { λ refused number. number ≡ number_of (refusal_of refused) };

    fn from(refusal: CardRefusal) -> u32 {
        match refusal {
            CardRefusal::Managed(managed) => u32::from(managed),
            CardRefusal::InvalidCardLength => 15,
            CardRefusal::DamagedBlock(_) => 16,
            CardRefusal::InvalidCard => 17,
        }
    }
}
