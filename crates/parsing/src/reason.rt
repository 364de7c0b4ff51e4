// Why a file or a call is turned down (document 01, 'What is turned down, by who can cause it'; from 18 on document 02).
ghost use Rattle.std.specs.Prelude.{◌≡◌};
ghost use Rattle.parsing.specs.Refusals.{number_of};

#[derive(Clone, Copy, PartialEq, Eq, Debug)]
pub enum Reason {
    // "1 wrong mark byte."
    WrongMark,
    // "2 version."
    WrongVersion,
    // "3 file ends early (place: its length)."
    EndsEarly,
    // "4 bytes left over."
    LeftOver,
    // "5 count of functions, parameters, locals or blocks outside its range, or a 17th level (at its first tag ..)."
    OutOfRange,
    // "6 unknown operation or tag."
    Unknown,
    // "7 no such variable."
    MissingVariable,
    // "8 no such label or handler label."
    MissingLabel,
    // "9 no such function."
    MissingFunction,
    // "10 argument count unlike the callee's (at the count)."
    CalleeArity,
    // "Keep 11 for a slot not bound." (Document 01 has 11 for another kind too, which 19 to 21 tell now.)
    UnboundSlot,
    // "12 length unlike the part read."
    WrongLength,
    // "13 slot above 35, or tag 9 with equal slots for both (at the handler slot)." In version 2 slots reach 36 (document 02, Slip 7).
    WrongSlot,
    // "14 argument count unlike function 0's"; document 02 (Slip 4): unlike the start function's.
    StartArity,
    // "15 file above its limit (32,768; translated 65,535; place: the limit)."
    FileTooLong,
    // "16 depth above 256, or a lent buffer too short (48 words of 32 bits per frame; the whole translation)."
    NoRoom,
    // "17 translation above 65,535 bytes." "Places of 14, 16 and 17 are 0."
    TranslationTooLong,
    // "18 at 0 when the run was refused or did not end, or its steps and extras together pass 64 bits."
    NoCharge,
    // "19 when a whole number was needed and another kind is bound."
    NotWhole,
    // "20 when a continuation was needed and another kind is bound."
    NotContinuation,
    // "21 when a handler was needed and another kind is bound."
    NotHandler,
    // "22 when the merged file would have over 32 functions or 32,768 bytes, at 0".
    MergedTooLarge,
    // For a number that the documents do not give, which a caller may hand in.
    Other(u8),
}

impl Reason {
    // Its number.
    pub fn number(self) -> u8
        ensures { result ≡ number_of self }
    {
        match self {
            Reason::WrongMark => 1,
            Reason::WrongVersion => 2,
            Reason::EndsEarly => 3,
            Reason::LeftOver => 4,
            Reason::OutOfRange => 5,
            Reason::Unknown => 6,
            Reason::MissingVariable => 7,
            Reason::MissingLabel => 8,
            Reason::MissingFunction => 9,
            Reason::CalleeArity => 10,
            Reason::UnboundSlot => 11,
            Reason::WrongLength => 12,
            Reason::WrongSlot => 13,
            Reason::StartArity => 14,
            Reason::FileTooLong => 15,
            Reason::NoRoom => 16,
            Reason::TranslationTooLong => 17,
            Reason::NoCharge => 18,
            Reason::NotWhole => 19,
            Reason::NotContinuation => 20,
            Reason::NotHandler => 21,
            Reason::MergedTooLarge => 22,
            Reason::Other(number) => number,
        }
    }
}
