// Why a block is refused: the reasons, their numbers and the values that they hold.
#![tactic(auto)]

ghost use Rattle.std.specs.Prelude.{◌≡◌};
ghost use Rattle.image_reasons.specs.Reasons.{reason_number, reason_value, value_of};

// Why a block was refused, with the value found.
#[derive(Clone, Copy, Debug, PartialEq, Eq)]
pub enum Reason {
    AfterLast,
    CheckWrong,
    Count(u32),
    Number(u32),
    OtherCount(u32),
    OtherRelease(u32),
    Length(u16),
    Reserved(u16),
    FillNotZero,
}

impl Reason {
    pub fn number(self) -> u32
        ensures { result ≡ reason_number self }
    {
        match self {
            Reason::Count(_) => 7,
            Reason::Number(_) => 8,
            Reason::OtherCount(_) => 9,
            Reason::OtherRelease(_) => 10,
            Reason::Length(_) => 12,
            Reason::Reserved(_) => 13,
            Reason::CheckWrong => 14,
            Reason::FillNotZero => 15,
            Reason::AfterLast => 16,
        }
    }

    // The value that a reason holds, if it holds one.
    pub fn value(self) -> Option<u32>
        ensures { result ≡ value_of (reason_value self) }
    {
        match self {
            Reason::Count(n)
            | Reason::Number(n)
            | Reason::OtherCount(n)
            | Reason::OtherRelease(n) => Some(n),
            Reason::Length(n) | Reason::Reserved(n) => Some(u32::from(n)),
            Reason::CheckWrong | Reason::FillNotZero | Reason::AfterLast => None,
        }
    }
}

#[derive(Clone, Copy, Debug, PartialEq, Eq)]
pub enum Verdict {
    Accepted,
    Refused(Reason),
}
