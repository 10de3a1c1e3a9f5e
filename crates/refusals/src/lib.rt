// Why a question is refused, and where.
#![tactic(auto)]

ghost use Rattle.std.specs.Prelude.{◌≡◌};
ghost use Rattle.refusals.specs.Reasons.{number_of};

// The reasons, in the order of their numbers, which run from 1.
#[derive(Clone, Copy, Debug, PartialEq, Eq)]
pub enum Reason {
    NotXmf = 1,
    BadVersion,
    CutShort,
    BadNumber,
    WrongLength,
    BadType,
    BadTree,
    BadNode,
    TooDeep,
    NoRowLeft,
    BadContents,
    BadUnpacker,
    BadReference,
    BadFolder,
    BytesLeft,
    BadTarget,
    TooLarge,
    NoSuchRow,
    EndsAtFolder,
    EndsAtUri,
    TooManyHops,
    NoRoom,
    NoSuchItem,
    BadDetached,
    BadDescription,
    BadText,
    NoSuchCard,
    NoFreeCard,
    AlreadyThere,
    SheetTooLong,
    BadSheet,
    TooManyFiles,
    NotATag,
    BadTag,
    Unsynchronised,
    RefersElsewhere,
    NotATitle,
    ResultTooLarge,
    DamagedShelf,
}

impl Reason {
    // The number that people and other languages know the reason by.
    pub fn number(self) -> u64
        ensures { result ≡ number_of self }
    {
        self as u64
    }
}

// A refusal: its reason, and the place of what is wrong, in the file, text, tag or sheet that was read; 0 where no place is named.
#[derive(Clone, Copy, Debug, PartialEq, Eq)]
pub struct Refusal(pub Reason, pub usize);
